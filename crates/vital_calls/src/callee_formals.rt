//! The formals of what is called.

ghost use Rattle.std.specs.Prelude.{◌≡◌};
ghost use Rattle.vital_calls.specs.Formals.{formals_of_function, formals_of_procedure, formals_of_state_table, input_count, lent, number_of};

use crate::formal::Formals;
use crate::formal_tables::{
    PATH_DELAY, PATH_DELAY01, PATH_DELAY01Z, PERIOD_PULSE_CHECK, RECOVERY_REMOVAL_CHECK,
    SETUP_HOLD_CHECK, STATE_TABLE, TRUTH_TABLE, VECTOR_STATE_TABLE, WIRE_DELAY,
};
use vital_names::{Check, Function, Inputs, Primitive, Procedure};
use vital_timing::DelayType;

/// The formals of a function.
#[tactic(auto, unfolding(crate::specs::Formals::formals_of_function))]
pub fn formals_of_function(function: Function) -> Formals
    ensures { lent result ≡ formals_of_function function }
{
    match function {
        Function::Primitive(primitive) => Formals::Levels(input_count(primitive)),
        Function::Conversion(_) => Formals::Levels(1),
        Function::TruthTable => Formals::PositionsOrNames(&TRUTH_TABLE),
    }
}

/// The formals of a procedure. Those of VitalStateTable have the number of states exactly where the actual of its result is a vector
/// variable.
#[tactic(auto, unfolding(crate::specs::Formals::formals_of_procedure))]
pub fn formals_of_procedure(procedure: Procedure, has_vector_result: bool) -> Formals
    ensures { lent result ≡ formals_of_procedure procedure has_vector_result }
{
    match procedure {
        Procedure::WireDelay => Formals::PositionsOrNames(&WIRE_DELAY),
        Procedure::StateTable => formals_of_state_table(has_vector_result),
        Procedure::PathDelay(DelayType::One) => Formals::Names(&PATH_DELAY),
        Procedure::PathDelay(DelayType::Two) => Formals::Names(&PATH_DELAY01),
        Procedure::PathDelay(DelayType::Six) => Formals::Names(&PATH_DELAY01Z),
        Procedure::Check(Check::SetupHold) => Formals::Names(&SETUP_HOLD_CHECK),
        Procedure::Check(Check::RecoveryRemoval) => Formals::Names(&RECOVERY_REMOVAL_CHECK),
        Procedure::Check(Check::PeriodPulse) => Formals::Names(&PERIOD_PULSE_CHECK),
    }
}

/// The formals of VitalStateTable.
fn formals_of_state_table(has_vector_result: bool) -> Formals
    ensures { lent result ≡ formals_of_state_table has_vector_result }
{
    if has_vector_result {
        Formals::Names(&VECTOR_STATE_TABLE)
    } else {
        Formals::Names(&STATE_TABLE)
    }
}

/// How many inputs a primitive has.
pub fn input_count(primitive: Primitive) -> usize
    ensures { result ≡ input_count primitive }
{
    match primitive {
        Primitive::Gate(_, inputs) => number_of(inputs),
        Primitive::Buf | Primitive::Inv | Primitive::Ident => 1,
        Primitive::Bufif0 | Primitive::Bufif1 | Primitive::Invif0 | Primitive::Invif1 => 2,
        Primitive::Mux2 => 3,
    }
}

/// The number of inputs of a gate.
fn number_of(inputs: Inputs) -> usize
    ensures { result ≡ number_of inputs }
{
    match inputs {
        Inputs::Two => 2,
        Inputs::Three => 3,
        Inputs::Four => 4,
    }
}
