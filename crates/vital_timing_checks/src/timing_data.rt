//! What checks of a test signal against a reference signal keep, and the step that they share.

ghost use Rattle.std.specs.Prelude.{◌≡◌, ◌≤◌, ℕ, IfSome};
ghost use Rattle.std.specs.Option.{option_map};
ghost use Rattle.vital_timing_checks.specs.Levels.{differ};
ghost use Rattle.vital_timing_checks.specs.TimingSteps.{NoneAbove, closed, closed_edge, found, is_reference_edge, is_test_event, noted, open_since, stored, timing_step, unused};

use crate::violated::{LimitTest, Violated};
use vital_base::Time;
use vital_edges::EdgeSet;
use vital_logic::{Level, to_byte, to_x01, to_x01z};

/// The levels of the last call, without their strengths: the test signal's as To_X01Z, the reference signal's as To_X01.
#[derive(Clone, Copy, PartialEq, Eq)]
pub struct SignalLevels {
    pub test: Level,
    pub reference: Level,
}

/// The last reference edge: its time (RefTime), and whether hold is open, which it is until the next test event.
#[derive(Clone, Copy, PartialEq, Eq)]
pub struct ReferenceEdge {
    pub time: Time,
    pub is_open: bool,
}

/// What is kept between calls (IEEE 1076.4, VitalTimingDataType). Times are in femtoseconds. Hold is open only after an edge, so
/// that an open one has a known RefTime.
#[derive(Clone, Copy, PartialEq, Eq)]
pub struct TimingData {
    /// The levels of the last call. None before the first.
    pub levels: Option<SignalLevels>,
    /// The time of the last test event (TestTime).
    pub test_time: Option<Time>,
    /// The last reference edge.
    pub edge: Option<ReferenceEdge>,
}

/// What a call tests: at a reference edge, and at a test event while hold is open.
#[derive(Clone, Copy, PartialEq, Eq)]
pub struct EventTests {
    pub on_reference: Option<LimitTest>,
    pub on_test: Option<LimitTest>,
}

/// Are two levels unequal?
pub fn differ(a: Level, b: Level) -> bool
    ensures { result ≡ differ a b }
{
    to_byte(a) != to_byte(b)
}

/// The levels that a call stores.
fn stored(test: Level, reference: Level) -> SignalLevels
    ensures { result ≡ stored test reference }
{
    SignalLevels {
        test: to_x01z(test),
        reference: to_x01(reference),
    }
}

/// Is the test signal's level another one than that of the last call?
fn is_test_event(levels: Option<SignalLevels>, test: Level) -> bool
    ensures { result ≡ is_test_event levels test }
{
    match levels {
        Some(old) => differ(old.test, to_x01z(test)),
        None => false,
    }
}

/// Is the reference signal's change since the last call in the edge set?
fn is_reference_edge(levels: Option<SignalLevels>, reference: Level, edges: EdgeSet) -> bool
    ensures { result ≡ is_reference_edge levels reference edges }
{
    match levels {
        Some(old) => edges.holds(old.reference, to_x01(reference)),
        None => false,
    }
}

/// What a test finds by the time from an earlier one until now, if it is due.
fn found(is_due: bool, test: Option<LimitTest>, since: Option<Time>, now: Time) -> Option<Violated>
    requires { IfSome since (λ time. time ≤ now) }
    ensures { result ≡ found is_due test since now }
{
    match test {
        Some(test) if is_due => test.violated_since(since, now),
        _ => None,
    }
}

/// The time of a reference edge, if hold is open.
fn open_since(edge: Option<ReferenceEdge>) -> Option<Time>
    ensures { result ≡ open_since edge }
{
    match edge {
        Some(edge) if edge.is_open => Some(edge.time),
        _ => None,
    }
}

/// The last reference edge, with hold closed.
fn closed_edge(edge: Option<ReferenceEdge>) -> Option<ReferenceEdge>
    ensures closed { result ≡ option_map closed_edge edge }
    ensures times { (now : ℕ) → IfSome edge (λ edge. edge.time ≤ now) → IfSome result (λ edge. edge.time ≤ now) }
{
    match edge {
        Some(edge) => Some(ReferenceEdge {
            is_open: false,
            ..edge
        }),
        None => None,
    }
}

impl TimingData {
    /// What is kept before the first call.
    pub fn unused() -> TimingData
        ensures { result ≡ unused }
    {
        TimingData {
            levels: None,
            test_time: None,
            edge: None,
        }
    }

    /// With the levels of a call, and the times of its test event and its reference edge, which opens hold.
    fn noted(self, now: Time, levels: SignalLevels, event: bool, edge: bool) -> TimingData
        requires { NoneAbove now self }
        ensures noted { result ≡ noted self now levels event edge }
        ensures times { NoneAbove now result }
    {
        let opened = ReferenceEdge {
            time: now,
            is_open: true,
        };
        TimingData {
            levels: Some(levels),
            test_time: if event { Some(now) } else { self.test_time },
            edge: if edge { Some(opened) } else { self.edge },
        }
    }

    /// With hold closed, if there is a test event.
    fn closed(self, event: bool) -> TimingData
        ensures closed { result ≡ closed self event }
        ensures times { (now : ℕ) → NoneAbove now self → NoneAbove now result }
    {
        if event {
            TimingData {
                edge: closed_edge(self.edge),
                ..self
            }
        } else {
            self
        }
    }

    /// One call of a check: what is kept after it, and the violation that it finds.
    pub fn step(
        self,
        now: Time,
        test: Level,
        reference: Level,
        edges: EdgeSet,
        tests: EventTests,
        enabled: bool,
    ) -> (TimingData, Option<Violated>)
        requires { NoneAbove now self }
        ensures step { result ≡ timing_step self now test reference edges tests enabled }
        ensures times { (later : ℕ) → now ≤ later → NoneAbove later result.0 }
    {
        let event = is_test_event(self.levels, test);
        let edge = is_reference_edge(self.levels, reference, edges);
        let next = self.noted(now, stored(test, reference), event, edge);
        let before = found(enabled && edge, tests.on_reference, next.test_time, now);
        let after = found(enabled && event, tests.on_test, open_since(next.edge), now);
        (next.closed(event), before.or(after))
    }
}
