//! Names of conditions while they are written.

ghost use Rattle.std.specs.Prelude.{◌≡◌, ℕ, List, [], ◌∷◌, ◌++◌, IfOk, OnOk};
ghost use Rattle.vital_sdf_words.specs.Conditions.{tidied};
ghost use Rattle.vital_sdf_words.specs.TidyNames.{tidied_after};

use std::alloc::{AllocError, Global};
use vital_base::Name;

/// A name while it is written: in small letters, without `_` at its ends, and with one `_` for each run of them.
#[derive(Drop)]
pub struct TidyName {
    bytes: Vec<u8>,
    /// Did `_` come last?
    is_gap: bool,
}

impl TidyName {
    /// The empty name.
    pub fn new(alloc: Global) -> Self
        ensures { (rest : List ℕ) → tidied_after result rest ≡ tidied rest }
    {
        TidyName {
            bytes: Vec::new(alloc),
            is_gap: false,
        }
    }

    /// One byte more.
    pub fn push(&mut self, byte: u8) -> Result<(), AllocError>
        ensures { OnOk result ((rest : List ℕ) → tidied_after self.new rest ≡ tidied_after self.old (byte ∷ rest)) }
    {
        if byte == b'_' {
            self.is_gap = true;
            return Ok(());
        }
        if self.is_gap && !self.bytes.is_empty() {
            self.bytes.push(b'_')?;
        }
        self.is_gap = false;
        self.bytes.push(byte.to_ascii_lowercase())?;
        Ok(())
    }

    /// These bytes more.
    pub fn extend(&mut self, bytes: &[u8]) -> Result<(), AllocError>
        ensures { OnOk result ((rest : List ℕ) → tidied_after self.new rest ≡ tidied_after self.old (bytes.now ++ rest)) }
    {
        for byte in bytes {
            self.push(*byte)?;
        }
        Ok(())
    }

    /// The name that is written.
    pub fn finish(self) -> Name
        ensures { result ≡ tidied_after self [] }
    {
        Name::new(self.bytes)
    }
}
