ghost use Rattle.std.specs.Prelude.{◌≡◌, ◌≤◌};
ghost use Rattle.covering_file.specs.Header.{IsVersion};
ghost use Rattle.billiards_cli.specs.UpgradeVersions.{upgrade_version};

use crate::number::number;
use covering_file::MAX_VERSION;
use std::marker::Model;

// The least version to which a file is upgraded.
const LEAST: u32 = 2;

/// The version of the format to which a covering file is upgraded.
#[derive(Clone, Copy)]
pub(crate) struct UpgradeVersion {
    version: u32,
}

impl Model for UpgradeVersion {
    ghost use Rattle.std.specs.Prelude.{ℕ, ◌≤◌};
    ghost use Rattle.covering_file.specs.declared.TheConstants.{MAX_VERSION};

    ghost Value = { ℕ };

    ghost view = { λ v. v.version };

    ghost invariant = { λ v. (2 ≤ v.version) × (v.version ≤ MAX_VERSION) };

    ghost inverse = { λ n. record { version = n } };
}

impl UpgradeVersion {
    /// The version that a text writes.
    pub(crate) fn read(text: &[u8]) -> Option<UpgradeVersion>
        ensures { result ≡ upgrade_version text.now }
    {
        let version = number(text, MAX_VERSION)?;
        if version >= LEAST {
            Some(UpgradeVersion { version })
        } else {
            None
        }
    }

    pub(crate) fn get(&self) -> u8
        ensures value { result ≡ self.now }
        ensures at_least { 2 ≤ self.now }
        ensures is_version { IsVersion self.now }
    {
        self.version as u8
    }
}
