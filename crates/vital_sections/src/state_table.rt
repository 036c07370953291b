//! Calls of VitalStateTable.

ghost use Rattle.std.specs.Prelude.{◌≡◌, IfOk};
ghost use Rattle.std.specs.Option.{option_and_then};
ghost use Rattle.vital_sections.specs.Given as givens;
ghost use Rattle.vital_sections.specs.Given.{lent};
ghost use Rattle.vital_sections.specs.StateTables as spec;
ghost use Rattle.vital_typed_statements.specs.StateTables.{states_of};

use crate::given::GivenCall;
use std::alloc::AllocError;
use vital_actuals::Target;
use vital_base::Name;
use vital_operands::{ConstantName, VectorExpr};

/// A call of VitalStateTable (IEEE 1076.4, package VITAL_Primitives). The columns of its table are the inputs, then the states, then the
/// results.
#[derive(Drop)]
pub struct StateTable {
    pub table: ConstantName,
    /// The inputs.
    pub data_in: VectorExpr,
    /// What the results are put to, of which the first ones are the states.
    pub result: Target,
    /// How many states there are: at most as many as results.
    pub num_states: usize,
    /// The vector variable, as long as the inputs, that keeps them.
    pub previous_data_in: Name,
}

/// The number of states for what the results are put to.
fn states_for(call: &GivenCall<'_>, target: &Target) -> Result<Option<usize>, AllocError>
    ensures { IfOk result (λ states. states ≡ states_of (givens.count_given (lent call.now)) target.now) }
{
    match target {
        Target::Level(_) | Target::Element(_, _) => Ok(Some(1)),
        Target::Vector(_, _) => call.count(),
    }
}

/// The vector variable that keeps the inputs.
fn kept(call: &GivenCall<'_>) -> Result<Option<Name>, AllocError>
    ensures { IfOk result (λ name. name ≡ option_and_then spec.vector_in (givens.kept_given (lent call.now))) }
{
    match call.kept()? {
        Some(Target::Vector(name, _)) => Ok(Some(name)),
        _ => Ok(None),
    }
}

/// A call with its table and its inputs.
fn with_result(
    call: &GivenCall<'_>,
    table: ConstantName,
    data_in: VectorExpr,
) -> Result<Option<StateTable>, AllocError>
    ensures { IfOk result (λ found. found ≡ spec.with_result (lent call.now) table data_in) }
{
    let Some(target) = call.result()? else {
        return Ok(None);
    };
    let Some(num_states) = states_for(call, &target)? else {
        return Ok(None);
    };
    let Some(previous_data_in) = kept(call)? else {
        return Ok(None);
    };
    Ok(Some(StateTable {
        table,
        data_in,
        result: target,
        num_states,
        previous_data_in,
    }))
}

/// A call of VitalStateTable. It takes time in proportion to the call.
pub fn state_table(call: &GivenCall<'_>) -> Result<Option<StateTable>, AllocError>
    ensures { IfOk result (λ found. found ≡ spec.state_table (lent call.now)) }
{
    let Some(table) = call.table()? else {
        return Ok(None);
    };
    let Some(data_in) = call.inputs()? else {
        return Ok(None);
    };
    with_result(call, table, data_in)
}
