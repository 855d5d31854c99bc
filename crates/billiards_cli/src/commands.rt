// The commands, a module for each.
pub(crate) mod at;
pub(crate) mod check;
pub(crate) mod cover;
pub(crate) mod demo;
pub(crate) mod draw;
pub(crate) mod family;
pub(crate) mod job;
pub(crate) mod merge;
pub(crate) mod path;
pub(crate) mod points;
pub(crate) mod search;
pub(crate) mod tile;
pub(crate) mod unfold;
pub(crate) mod upgrade;
pub(crate) mod word;
