//! The check of setup and hold.

ghost use Rattle.std.specs.Prelude.{◌≡◌, ◌≤◌, ℕ};
ghost use Rattle.vital_timing_checks.specs.SetupHolds.{NoneAbove, setup_hold_step, setup_hold_tests, unused};

use crate::limits::SetupLimits;
use crate::timing_data::{EventTests, TimingData};
use crate::violated::{CheckKind, LimitTest, Violated};
use vital_base::Time;
use vital_edges::EdgeSet;
use vital_logic::{Level, to_x01};

/// What a check of setup and hold keeps between its calls (IEEE 1076.4, VitalSetupHoldCheck, TimingData).
#[derive(Clone, Copy, PartialEq, Eq)]
pub struct SetupHold {
    kept: TimingData,
}

/// What a call tests, by the level of the test signal.
fn tests(limits: &SetupLimits, test: Level) -> EventTests
    ensures { result ≡ setup_hold_tests limits.now test }
{
    let test = to_x01(test);
    EventTests {
        on_reference: Some(LimitTest {
            kind: CheckKind::Setup,
            limit: limits.setup(test),
        }),
        on_test: Some(LimitTest {
            kind: CheckKind::Hold,
            limit: limits.hold(test),
        }),
    }
}

impl SetupHold {
    /// The check before its first call: nothing is stored and no time is known.
    pub fn new() -> SetupHold
        ensures unused { result ≡ unused }
        ensures times { (now : ℕ) → NoneAbove now result }
    {
        SetupHold {
            kept: TimingData::unused(),
        }
    }

    /// A call of the check at the time now, in femtoseconds, with the levels of the test signal and of the reference signal. A change
    /// of the reference signal that is in the edge set begins hold, which ends at the next change of the test signal. Where the check
    /// is enabled, the former has the time since the last change of the test signal tested against the setup limit, and the latter
    /// the time since the former against the hold limit. None exactly where no time that is tested is below its limit. The first call
    /// only stores the levels; a call that isn't enabled keeps what an enabled one keeps (IEEE 1076.4, VitalSetupHoldCheck).
    pub fn check(
        &mut self,
        now: Time,
        test: Level,
        reference: Level,
        edges: EdgeSet,
        limits: &SetupLimits,
        enabled: bool,
    ) -> Option<Violated>
        requires { NoneAbove now self.old }
        ensures kept { self.new ≡ (setup_hold_step self.old now test reference edges limits.now enabled).0 }
        ensures found { result ≡ (setup_hold_step self.old now test reference edges limits.now enabled).1 }
        ensures times { (later : ℕ) → now ≤ later → NoneAbove later self.new }
    {
        let tests = tests(limits, test);
        let (kept, found) = self.kept.step(now, test, reference, edges, tests, enabled);
        self.kept = kept;
        found
    }
}
