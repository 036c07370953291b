//! What formals ask of their actuals.

use vital_timing::DelayType;

/// What the actual of a formal must be.
#[derive(Clone, Copy, Debug, PartialEq, Eq)]
pub enum ActualForm {
    /// A signal of the architecture.
    InternalSignal,
    /// A signal of the architecture, or an in or inout port.
    Signal,
    /// An out, inout or buffer port.
    OutPort,
    /// A variable that keeps what a path delay knows of glitches.
    GlitchData,
    /// A variable that keeps what a check of two signals knows.
    TimingData,
    /// A variable that keeps what a check of one signal knows.
    PeriodData,
    /// A variable of type X01.
    Violation,
    /// A level variable, an alias of one, or a vector variable.
    Result,
    /// A vector variable that keeps the inputs of a state table.
    PreviousData,
    /// A constant that is a truth table.
    TruthTable,
    /// A constant that is a state table.
    StateTable,
    /// A vector: the inputs of a table.
    Inputs,
    /// A literal number of states.
    StateCount,
    /// An expression that gives a level.
    Level,
    /// An expression that gives a delay of a type.
    Delay(DelayType),
    /// The generic of the wire delay of a port, whatever the type of its delay.
    WireDelay,
    /// An expression that gives a time.
    Time,
    /// An expression that gives a Boolean.
    Boolean,
    /// An expression that gives a text.
    Text,
    /// A mode, by which glitches are treated.
    Mode,
    /// How severe a message is.
    Severity,
    /// FALSE, and nothing else.
    OnlyFalse,
    /// TRUE, and nothing else.
    OnlyTrue,
    /// The time 0, and nothing else.
    OnlyZero,
    /// A character literal that stands for a set of changes.
    EdgeSymbol,
    /// A list of paths whose delays are of a type.
    Paths(DelayType),
}
