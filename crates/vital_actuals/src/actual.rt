//! Typed actuals.

use crate::target::Target;
use sqlite_items::Items;
use vital_base::Name;
use vital_names::Severity;
use vital_operands::{BooleanExpr, ConstantName, DelayExpr, LevelExpr, TimeExpr, VectorExpr};
use vital_timing::GlitchMode;

/// An actual of the form that its formal asks.
#[derive(Drop)]
pub enum Actual {
    /// The name of a signal, a port, a variable or the generic of a wire delay.
    Named(Name),
    /// What a result or the previous inputs of a state table are put to.
    Target(Target),
    /// A table, and how many columns it has.
    Table(ConstantName, usize),
    /// The inputs of a table.
    Inputs(VectorExpr),
    /// The number of states of a state table.
    StateCount(usize),
    Level(LevelExpr),
    Delay(DelayExpr),
    Time(TimeExpr),
    Boolean(BooleanExpr),
    /// A text, which has no effect.
    Text,
    Mode(GlitchMode),
    Severity(Severity),
    /// The one literal that its formal allows.
    Fixed,
    /// A character literal that stands for a set of changes.
    EdgeSymbol(u8),
    Paths(Items<Path>),
}

/// A path of a path delay (IEEE 1076.4, VitalPathType).
#[derive(Drop)]
pub struct Path {
    /// The internal signal, or the in or inout port, from whose last event it counts.
    pub signal: Name,
    pub delay: DelayExpr,
    /// The condition under which it counts.
    pub condition: BooleanExpr,
}
