//! The check of recovery and removal.

ghost use Rattle.std.specs.Prelude.{◌≡◌, ◌≤◌, ℕ};
ghost use Rattle.vital_timing_checks.specs.RecRems.{NoneAbove, rec_rem_step, rec_rem_tests, unused};

use crate::limits::RecoveryLimits;
use crate::timing_data::{EventTests, TimingData};
use crate::violated::{CheckKind, LimitTest, Violated};
use vital_base::Time;
use vital_edges::EdgeSet;
use vital_logic::{Level, to_x01};

/// What a check of recovery and removal keeps between its calls (IEEE 1076.4, VitalRecoveryRemovalCheck, TimingData).
#[derive(Clone, Copy, PartialEq, Eq)]
pub struct RecRem {
    kept: TimingData,
}

/// What a call tests: nothing at the active level of the test signal.
fn tests(limits: &RecoveryLimits, test: Level) -> EventTests
    ensures { result ≡ rec_rem_tests limits.now test }
{
    if limits.is_active(to_x01(test)) {
        return EventTests {
            on_reference: None,
            on_test: None,
        };
    }
    EventTests {
        on_reference: Some(LimitTest {
            kind: CheckKind::Recovery,
            limit: limits.recovery,
        }),
        on_test: Some(LimitTest {
            kind: CheckKind::Removal,
            limit: limits.removal,
        }),
    }
}

impl RecRem {
    /// The check before its first call: nothing is stored and no time is known.
    pub fn new() -> RecRem
        ensures unused { result ≡ unused }
        ensures times { (now : ℕ) → NoneAbove now result }
    {
        RecRem {
            kept: TimingData::unused(),
        }
    }

    /// A call of the check at the time now, in femtoseconds, with the levels of the test signal, an asynchronous control, and of the
    /// reference signal. A change of the reference signal that is in the edge set begins removal, which ends at the next change of the
    /// test signal. Where the check is enabled and the test signal isn't active, the former has the time since the last change of the
    /// test signal tested against the recovery limit, and the latter the time since the former against the removal limit. None exactly
    /// where no time that is tested is below its limit. The first call only stores the levels; a call that isn't enabled keeps what an
    /// enabled one keeps (IEEE 1076.4, VitalRecoveryRemovalCheck).
    pub fn check(
        &mut self,
        now: Time,
        test: Level,
        reference: Level,
        edges: EdgeSet,
        limits: &RecoveryLimits,
        enabled: bool,
    ) -> Option<Violated>
        requires { NoneAbove now self.old }
        ensures kept { self.new ≡ (rec_rem_step self.old now test reference edges limits.now enabled).0 }
        ensures found { result ≡ (rec_rem_step self.old now test reference edges limits.now enabled).1 }
        ensures times { (later : ℕ) → now ≤ later → NoneAbove later self.new }
    {
        let tests = tests(limits, test);
        let (kept, found) = self.kept.step(now, test, reference, edges, tests, enabled);
        self.kept = kept;
        found
    }
}
