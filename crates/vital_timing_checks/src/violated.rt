//! What a check finds.

ghost use Rattle.std.specs.Prelude.{◌≡◌, ◌≤◌, IfSome};
ghost use Rattle.vital_timing_checks.specs.Violations.{violated, violated_since};

use vital_base::Time;

/// What a check tests (IEEE 1076.4, package VITAL_Timing).
#[derive(Clone, Copy, PartialEq, Eq)]
pub enum CheckKind {
    Setup,
    Hold,
    Recovery,
    Removal,
    Period,
    Pulse,
}

/// A violation: what was tested, the time that was observed, and the limit that it is below, in femtoseconds.
#[derive(Clone, Copy, PartialEq, Eq)]
pub struct Violated {
    pub kind: CheckKind,
    pub observed: Time,
    pub limit: Time,
}

/// A test that is to be made, with its limit in femtoseconds.
#[derive(Clone, Copy, PartialEq, Eq)]
pub struct LimitTest {
    pub kind: CheckKind,
    pub limit: Time,
}

impl LimitTest {
    /// The violation by an observed time, if it is below the limit.
    pub fn violated(self, observed: Time) -> Option<Violated>
        ensures { result ≡ violated self observed }
    {
        if observed < self.limit {
            Some(Violated {
                kind: self.kind,
                observed,
                limit: self.limit,
            })
        } else {
            None
        }
    }

    /// The violation by the time from an earlier one until now. A time that isn't known is never tested.
    pub fn violated_since(self, since: Option<Time>, now: Time) -> Option<Violated>
        requires { IfSome since (λ time. time ≤ now) }
        ensures { result ≡ violated_since self since now }
    {
        match since {
            Some(time) => self.violated(now - time),
            None => None,
        }
    }
}
