//! The state tables that calls use, and how their columns are parted there.

ghost use Rattle.std.specs.Prelude.{◌≡◌};
ghost use Rattle.vital_calls.specs.Formals as all_formals;
ghost use Rattle.vital_expr.specs.Seen.{lent};
ghost use Rattle.vital_typed_statements.specs.Uses as spec;

use crate::given::GivenActual;
use crate::state_table::{
    has_too_many_states, has_wrong_inputs, inputs, result, state_count, table_columns,
};
use vital_calls::{Formals, actual_of};
use vital_declarations::TableType;
use vital_expr::Reader;
use vital_nodes::{Item, actual};
use vital_table_uses::{TableUse, UsedTable, used_table};

/// The numbers of inputs and of states, if these and the columns are known.
fn parting_by(
    columns: Option<usize>,
    inputs: Option<usize>,
    states: Option<usize>,
) -> Option<(usize, usize)>
    ensures { result ≡ spec.parting_by columns inputs states }
{
    match columns {
        Some(_) => match inputs {
            Some(inputs) => match states {
                Some(states) => Some((inputs, states)),
                None => None,
            },
            None => None,
        },
        None => None,
    }
}

/// How many columns of a state table are inputs and how many are states, where all columns are parted.
fn parting(given: &[GivenActual]) -> Option<(usize, usize)>
    ensures { result ≡ spec.parting given.now }
{
    if has_too_many_states(given) || has_wrong_inputs(given) {
        return None;
    }
    match result(given) {
        Some(target) => {
            parting_by(
                table_columns(given),
                inputs(given),
                state_count(given, target),
            )
        }
        None => None,
    }
}

/// The state table that items of a call name.
fn state_table(reader: &Reader<'_>, formals: Formals, items: &[Item]) -> Option<UsedTable>
    ensures { result ≡ spec.state_table (lent reader.now) (all_formals.lent formals) items.now }
{
    let item = actual_of(items, formals, b"statetable")?;
    used_table(&reader.position, TableType::State, actual(item)?)
}

/// The use of a state table with these actuals.
pub fn state_use(
    reader: &Reader<'_>,
    formals: Formals,
    items: &[Item],
    given: &[GivenActual],
) -> Option<TableUse>
    ensures { result ≡ spec.state_use (lent reader.now) (all_formals.lent formals) items.now given.now }
{
    let (inputs, states) = parting(given)?;
    let table = state_table(reader, formals, items)?;
    Some(TableUse {
        table,
        kind: TableType::State,
        inputs,
        states,
    })
}
