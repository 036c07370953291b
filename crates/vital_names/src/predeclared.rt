//! What is predeclared in every cell: names of the packages STANDARD (IEEE 1076-1993, 14.2), STD_LOGIC_1164 (IEEE 1164),
//! VITAL_Timing and VITAL_Primitives (IEEE 1076.4).

ghost use Rattle.std.specs.Prelude.{◌≡◌};
ghost use Rattle.vital_names.specs.Kinds as kinds;

use vital_nodes::Logical;
use vital_timing::{DelayType, GlitchMode, UnitOfTime};

/// What a predeclared name means.
#[derive(Clone, Copy, PartialEq, Eq)]
pub enum Predeclared {
    Boolean(bool),
    GlitchMode(GlitchMode),
    Severity(Severity),
    UnitOfTime(UnitOfTime),
    TypeName(TypeName),
    /// The delay of a type that is zero for every change.
    ZeroDelay(DelayType),
    /// What the timing data of a check begin as.
    TimingDataInit,
    /// What the period data of a check begin as.
    PeriodDataInit,
    Function(Function),
    Procedure(Procedure),
}

impl Predeclared {
    /// The type that a word is predeclared as, if it is one.
    pub fn as_type(self) -> Option<TypeName>
        ensures { result ≡ kinds.as_type self }
    {
        match self {
            Predeclared::TypeName(type_name) => Some(type_name),
            _ => None,
        }
    }

    /// The function that a word is predeclared as, if it is one.
    pub fn as_function(self) -> Option<Function>
        ensures { result ≡ kinds.as_function self }
    {
        match self {
            Predeclared::Function(function) => Some(function),
            _ => None,
        }
    }

    /// The procedure that a word is predeclared as, if it is one.
    pub fn as_procedure(self) -> Option<Procedure>
        ensures { result ≡ kinds.as_procedure self }
    {
        match self {
            Predeclared::Procedure(procedure) => Some(procedure),
            _ => None,
        }
    }
}

/// How severe a message is (IEEE 1076-1993, 14.2).
#[derive(Clone, Copy, PartialEq, Eq)]
pub enum Severity {
    Note,
    Warning,
    Error,
    Failure,
}

/// A type that declarations may name.
#[derive(Clone, Copy, PartialEq, Eq)]
pub enum TypeName {
    StdUlogic,
    StdLogic,
    StdLogicVector,
    X01,
    X01Z,
    Ux01,
    Ux01Z,
    Boolean,
    Text,
    Time,
    Delay(DelayType),
    TableSymbol,
    TruthTable,
    StateTable,
    GlitchData,
    TimingData,
    PeriodData,
}

/// A function that expressions may call.
#[derive(Clone, Copy, PartialEq, Eq)]
pub enum Function {
    Primitive(Primitive),
    Conversion(Conversion),
    /// VitalTruthTable.
    TruthTable,
}

/// A primitive (IEEE 1076.4, package VITAL_Primitives).
#[derive(Clone, Copy, Debug, PartialEq, Eq)]
pub enum Primitive {
    /// A gate of its operator with so many inputs.
    Gate(Logical, Inputs),
    Buf,
    Inv,
    Ident,
    Bufif0,
    Bufif1,
    Invif0,
    Invif1,
    Mux2,
}

/// How many inputs a gate has.
#[derive(Clone, Copy, Debug, PartialEq, Eq)]
pub enum Inputs {
    Two,
    Three,
    Four,
}

/// A conversion of levels (IEEE 1164).
#[derive(Clone, Copy, PartialEq, Eq)]
pub enum Conversion {
    X01,
    X01Z,
    Ux01,
}

/// A procedure that statements may call.
#[derive(Clone, Copy, PartialEq, Eq)]
pub enum Procedure {
    WireDelay,
    StateTable,
    /// The path delay whose delays are of this type.
    PathDelay(DelayType),
    Check(Check),
}

/// A timing check (IEEE 1076.4, package VITAL_Timing).
#[derive(Clone, Copy, PartialEq, Eq)]
pub enum Check {
    SetupHold,
    RecoveryRemoval,
    PeriodPulse,
}
