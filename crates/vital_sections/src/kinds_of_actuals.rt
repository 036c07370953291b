//! What an actual is.

ghost use Rattle.std.specs.Prelude.{◌≡◌};
ghost use Rattle.vital_sections.specs.Given as spec;

use sqlite_items::Items;
use vital_actuals::{Actual, Path, Target};
use vital_base::Name;
use vital_operands::{BooleanExpr, ConstantName, DelayExpr, LevelExpr, TimeExpr, VectorExpr};
use vital_timing::GlitchMode;

/// The name that an actual is.
pub fn name_in(actual: Actual) -> Option<Name>
    ensures { result ≡ spec.name_in actual }
{
    match actual {
        Actual::Named(name) => Some(name),
        other => {
            drop(other);
            None
        }
    }
}

/// What results are put to, if an actual is that.
pub fn target_in(actual: Actual) -> Option<Target>
    ensures { result ≡ spec.target_in actual }
{
    match actual {
        Actual::Target(target) => Some(target),
        other => {
            drop(other);
            None
        }
    }
}

/// The table that an actual is.
pub fn table_in(actual: Actual) -> Option<ConstantName>
    ensures { result ≡ spec.table_in actual }
{
    match actual {
        Actual::Table(table, _) => Some(table),
        other => {
            drop(other);
            None
        }
    }
}

/// The inputs of a table that an actual is.
pub fn inputs_in(actual: Actual) -> Option<VectorExpr>
    ensures { result ≡ spec.inputs_in actual }
{
    match actual {
        Actual::Inputs(inputs) => Some(inputs),
        other => {
            drop(other);
            None
        }
    }
}

/// The number of states that an actual is.
pub fn count_in(actual: &Actual) -> Option<usize>
    ensures { result ≡ spec.count_in actual.now }
{
    match actual {
        Actual::StateCount(count) => Some(*count),
        _ => None,
    }
}

/// The level that an actual is.
pub fn level_in(actual: Actual) -> Option<LevelExpr>
    ensures { result ≡ spec.level_in actual }
{
    match actual {
        Actual::Level(level) => Some(level),
        other => {
            drop(other);
            None
        }
    }
}

/// The delay that an actual is.
pub fn delay_in(actual: Actual) -> Option<DelayExpr>
    ensures { result ≡ spec.delay_in actual }
{
    match actual {
        Actual::Delay(delay) => Some(delay),
        other => {
            drop(other);
            None
        }
    }
}

/// The time that an actual is.
pub fn time_in(actual: Actual) -> Option<TimeExpr>
    ensures { result ≡ spec.time_in actual }
{
    match actual {
        Actual::Time(time) => Some(time),
        other => {
            drop(other);
            None
        }
    }
}

/// The truth value that an actual is.
pub fn truth_in(actual: Actual) -> Option<BooleanExpr>
    ensures { result ≡ spec.truth_in actual }
{
    match actual {
        Actual::Boolean(truth) => Some(truth),
        other => {
            drop(other);
            None
        }
    }
}

/// How glitches are treated, if an actual is that.
pub fn mode_in(actual: &Actual) -> Option<GlitchMode>
    ensures { result ≡ spec.mode_in actual.now }
{
    match actual {
        Actual::Mode(mode) => Some(*mode),
        _ => None,
    }
}

/// The symbol of changes that an actual is.
pub fn edge_in(actual: &Actual) -> Option<u8>
    ensures { result ≡ spec.edge_in actual.now }
{
    match actual {
        Actual::EdgeSymbol(symbol) => Some(*symbol),
        _ => None,
    }
}

/// The paths that an actual is.
pub fn paths_in(actual: Actual) -> Option<Items<Path>>
    ensures { result ≡ spec.paths_in actual }
{
    match actual {
        Actual::Paths(paths) => Some(paths),
        other => {
            drop(other);
            None
        }
    }
}
