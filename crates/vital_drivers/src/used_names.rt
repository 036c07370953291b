//! Sets of names that were used.

ghost use Rattle.std.specs.Prelude.{◌≡◌, ◌||◌, ℕ, List, not, IfOk, OnOk};
ghost use Rattle.std.specs.Str.{bytes_eq};
ghost use Rattle.vital_drivers.specs.Kept.{has_name};

use std::alloc::AllocError;
use std::collections::HashSet;

/// Names, borrowed.
pub type UsedNames<'a> = HashSet<&'a [u8]>;

/// Puts a name into a set, and says whether it was not there.
pub fn put_name<'a>(names: &mut UsedNames<'a>, name: &'a [u8]) -> Result<bool, AllocError>
    ensures added { IfOk result (λ added. added ≡ not (has_name names.old name.now)) }
    ensures names { OnOk result ((q : List ℕ) → has_name names.new q ≡ (bytes_eq name.now q || has_name names.old q)) }
{
    Ok(names.insert(name)?)
}
