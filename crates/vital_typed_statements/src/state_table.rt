//! How the actuals of VitalStateTable go with one another (IEEE 1076.4, package VITAL_Primitives).

ghost use Rattle.std.specs.Prelude.{◌≡◌};
ghost use Rattle.std.specs.List.{find};
ghost use Rattle.std.specs.Option.{option_copied};
ghost use Rattle.std.specs.Str.{bytes_eq};
ghost use Rattle.vital_typed_statements.specs.Given.{actual_for as actual_for'};
ghost use Rattle.vital_typed_statements.specs.StateTables as spec;

use crate::given::GivenActual;
use vital_actuals::{Actual, Target};
use vital_expr::length_of;

/// What is given first for the formal of a name.
fn given_for<'a>(name: &[u8], given: &'a [GivenActual]) -> Option<&'a GivenActual>
    ensures { option_copied result ≡ find (λ g. bytes_eq g.formal name.now) given.now }
{
    given.iter().find(|one| one.formal.as_slice() == name)
}

/// The actual that is given for the formal of a name.
fn actual_for<'a>(name: &[u8], given: &'a [GivenActual]) -> Option<&'a Actual>
    ensures { option_copied result ≡ actual_for' name.now given.now }
{
    match given_for(name, given) {
        Some(one) => Some(&one.actual),
        None => None,
    }
}

/// How many columns the table has.
pub fn table_columns(given: &[GivenActual]) -> Option<usize>
    ensures { result ≡ spec.columns given.now }
{
    match actual_for(b"statetable", given) {
        Some(Actual::Table(_, columns)) => Some(*columns),
        _ => None,
    }
}

/// How many inputs there are.
pub fn inputs(given: &[GivenActual]) -> Option<usize>
    ensures { result ≡ spec.inputs given.now }
{
    match actual_for(b"datain", given) {
        Some(Actual::Inputs(inputs)) => Some(length_of(inputs)),
        _ => None,
    }
}

/// The number of states, if it is given.
fn count(given: &[GivenActual]) -> Option<usize>
    ensures { result ≡ spec.count given.now }
{
    match actual_for(b"numstates", given) {
        Some(Actual::StateCount(count)) => Some(*count),
        _ => None,
    }
}

/// What is put to the formal of a name.
fn target_for<'a>(name: &[u8], given: &'a [GivenActual]) -> Option<&'a Target>
    ensures { option_copied result ≡ spec.target_for name.now given.now }
{
    match actual_for(name, given) {
        Some(Actual::Target(target)) => Some(target),
        _ => None,
    }
}

/// What results are put to.
pub fn result(given: &[GivenActual]) -> Option<&Target>
    ensures { option_copied result ≡ spec.result given.now }
{
    target_for(b"result", given)
}

/// How many results there are.
fn results_of(target: &Target) -> usize
    ensures { result ≡ spec.results_of target.now }
{
    match target {
        Target::Level(_) | Target::Element(_, _) => 1,
        Target::Vector(_, length) => *length,
    }
}

/// The number of states: 1 for one level, and the one that is given for a vector.
fn states_of(count: Option<usize>, target: &Target) -> Option<usize>
    ensures { result ≡ spec.states_of count target.now }
{
    match target {
        Target::Level(_) | Target::Element(_, _) => Some(1),
        Target::Vector(_, _) => count,
    }
}

/// The number of states of a table whose results are put to a target.
pub fn state_count(given: &[GivenActual], target: &Target) -> Option<usize>
    ensures { result ≡ spec.states_of (spec.count given.now) target.now }
{
    states_of(count(given), target)
}

/// Whether a number of states is greater than the number of results.
fn is_greater_than_results(count: Option<usize>, target: Option<&Target>) -> bool
    ensures { result ≡ spec.is_greater_than_results count (option_copied target.entry) }
{
    match count {
        Some(count) => match target {
            Some(target) => results_of(target) < count,
            None => false,
        },
        None => false,
    }
}

/// Whether there are more states than results.
pub fn has_too_many_states(given: &[GivenActual]) -> bool
    ensures { result ≡ spec.has_too_many_states given.now }
{
    is_greater_than_results(count(given), result(given))
}

/// Whether inputs, states and results are as many as the columns.
fn are_parted(columns: usize, inputs: usize, states: usize, results: usize) -> bool
    ensures { result ≡ spec.are_parted columns inputs states results }
{
    match columns.checked_sub(inputs) {
        Some(others) => match others.checked_sub(states) {
            Some(rest) => rest == results,
            None => false,
        },
        None => false,
    }
}

/// Whether these numbers are known and do not go with one another.
fn wrong_inputs_by(
    columns: Option<usize>,
    inputs: Option<usize>,
    states: Option<usize>,
    results: usize,
) -> bool
    ensures { result ≡ spec.wrong_inputs_by columns inputs states results }
{
    match columns {
        Some(columns) => match inputs {
            Some(inputs) => match states {
                Some(states) => !are_parted(columns, inputs, states, results),
                None => false,
            },
            None => false,
        },
        None => false,
    }
}

/// Whether what results are put to says that the inputs do not go with the columns.
fn has_wrong_inputs_for(given: &[GivenActual], target: &Target) -> bool
    ensures { result ≡ spec.has_wrong_inputs_for given.now target.now }
{
    wrong_inputs_by(
        table_columns(given),
        inputs(given),
        state_count(given, target),
        results_of(target),
    )
}

/// Whether the inputs do not go with the columns of the table.
pub fn has_wrong_inputs(given: &[GivenActual]) -> bool
    ensures { result ≡ spec.has_wrong_inputs given.now }
{
    match result(given) {
        Some(target) => !has_too_many_states(given) && has_wrong_inputs_for(given, target),
        None => false,
    }
}

/// Whether a number of inputs is not the length of what keeps them.
fn differs(inputs: Option<usize>, kept: Option<&Target>) -> bool
    ensures { result ≡ spec.differs inputs (option_copied kept.entry) }
{
    match inputs {
        Some(inputs) => match kept {
            Some(kept) => inputs != results_of(kept),
            None => false,
        },
        None => false,
    }
}

/// Whether what keeps the inputs is not as long as they are.
pub fn has_wrong_kept(given: &[GivenActual]) -> bool
    ensures { result ≡ spec.has_wrong_kept given.now }
{
    differs(inputs(given), target_for(b"previousdatain", given))
}

/// Whether all go with one another.
pub fn fits(given: &[GivenActual]) -> bool
    ensures { result ≡ spec.fits given.now }
{
    !has_too_many_states(given) && !has_wrong_inputs(given) && !has_wrong_kept(given)
}
