ghost use Rattle.std.specs.Prelude.{◌≡◌, ◌≤◌, ◌↔◌, Contains, IsTrue};
ghost use Rattle.vital_base.specs.Faults.{Rose, counted};

use thiserror::Error;

/// A device failed in this call, and its count of faults rose.
#[derive(Clone, Copy, Debug, PartialEq, Eq, Error)]
#[error("a device failed")]
pub struct Failed;

impl Failed {
    /// The answer of a device that fails, counted as one fault more.
    pub(crate) fn count(faults: &mut u64) -> Failed
        ensures counted { faults.new ≡ counted faults.old }
        ensures rose { Rose faults.old faults.new }
        ensures never_falls { faults.old ≤ faults.new }
    {
        *faults = faults.saturating_add(1);
        Failed
    }
}

/// Whether the call with this number is one of those that are to fail.
pub(crate) fn is_listed(fails: &[u32], call: u64) -> bool
    ensures { IsTrue result ↔ Contains fails.now call }
{
    fails.iter().any(|number| u64::from(*number) == call)
}
