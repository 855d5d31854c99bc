//! Texts of lines: what a due line may be, and what is said of the first that offends.
//!
//! The one contract: what is read is what the lines say, taken exactly; and of lines that are not as they are due the first
//! that offends is named, with its least reason, in the grammar that the parts of the text make up.
#![tactic(auto)]

mod due_line;
mod fault;
mod fields;
mod form;
mod reason;

pub use due_line::{end_of_input, take};
pub use fault::LineFault;
pub use fields::two_fields;
pub use form::{Form, Numbered, Whole};
pub use reason::Reason;
