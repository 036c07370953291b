//! The statements of processes as numbered steps.

use crate::state_table::StateTable;
use crate::trees::{LevelTree, TruthTree, VectorTree};
use sqlite_items::Items;
use vital_base::Time;
use vital_edges::EdgeSet;
use vital_timing::{Delay, GlitchMode};
use vital_timing_checks::{PulseLimits, SetupLimits};

/// What levels are put to, by the number of a variable of the process.
#[derive(Clone, Copy, PartialEq, Eq)]
pub enum Place {
    /// A variable of one level.
    Level(usize),
    /// The element of a vector at a number of places behind its left end.
    Element(usize, usize),
    Vector(usize),
}

/// A statement of the functionality of a process.
#[derive(Drop)]
pub enum FunctionalStep {
    Level(Place, LevelTree),
    Vector(Place, VectorTree),
    StateTable(StateTableStep),
}

/// A call of VitalStateTable.
#[derive(Drop)]
pub struct StateTableStep {
    pub table: StateTable,
    pub data_in: VectorTree,
    pub result: Place,
    /// The vector variable that keeps the inputs.
    pub previous_data_in: usize,
}

/// A call of a timing check.
#[derive(Drop)]
pub struct CheckStep {
    /// The bit that is tested.
    pub test: u32,
    /// The variable that says whether a violation was found, and the one that keeps what the check knows.
    pub violation: usize,
    pub kept: usize,
    pub check_enabled: TruthTree,
    pub x_on: TruthTree,
    pub msg_on: TruthTree,
    pub kind: CheckKindStep,
}

/// What is tested by a timing check.
#[derive(Drop)]
pub enum CheckKindStep {
    SetupHold(ReferenceStep, SetupLimits),
    RecoveryRemoval(ReferenceStep, RecoveryStep),
    PeriodPulse(PulseLimits),
}

/// The bit that a tested one is compared with, and at which of its changes.
#[derive(Clone, Copy)]
pub struct ReferenceStep {
    pub signal: u32,
    pub edges: EdgeSet,
}

/// The limits of a check of recovery and removal, in femtoseconds, and whether the tested bit is active at 0.
#[derive(Drop)]
pub struct RecoveryStep {
    pub recovery: Time,
    pub removal: Time,
    pub active_low: TruthTree,
}

/// A call of a path delay.
#[derive(Drop)]
pub struct PathDelayStep {
    /// Its driver, by its number within the cell.
    pub driver: u32,
    /// The port that it drives, by the number of its bit.
    pub out_signal: u32,
    /// The variable that keeps what it knows of glitches.
    pub glitch_data: usize,
    pub out_temp: LevelTree,
    pub paths: Items<PathStep>,
    pub default_delay: Delay,
    pub mode: GlitchMode,
    pub x_on: TruthTree,
    pub msg_on: TruthTree,
}

/// A path to the port of a path delay.
#[derive(Drop)]
pub struct PathStep {
    /// The bit from whose last event it counts.
    pub signal: u32,
    pub delay: Delay,
    pub condition: TruthTree,
}

/// The statements of a process in their sections.
#[derive(Drop)]
pub struct ProcessSteps {
    pub checks: Items<CheckStep>,
    pub functionality: Items<FunctionalStep>,
    pub path_delays: Items<PathDelayStep>,
}

/// A call of VitalWireDelay, which is a process of its own.
#[derive(Clone, Copy)]
pub struct WireStep {
    /// Its driver, by its number within the cell.
    pub driver: u32,
    /// The bit of the port whose changes come to the signal.
    pub port: usize,
    pub delay: Delay,
}

/// What is executed as a process.
#[derive(Drop)]
pub enum Executed {
    Wire(WireStep),
    Process(ProcessSteps),
}
