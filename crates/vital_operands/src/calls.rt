//! Calls of functions in expressions.

ghost use Rattle.std.specs.Prelude.{◌≡◌};
ghost use Rattle.std.specs.List.{list_all};
ghost use Rattle.std.specs.Option.{option_copied, option_map};
ghost use Rattle.vital_operands.specs.Calls as spec;
ghost use Rattle.vital_operands.specs.Seen.{lent};

use crate::position::{Position, Standing};
use vital_calls::{ActualForm, form_of, formals_of_function, has_wrong_formals};
use vital_names::Function;
use vital_nodes::{Expr, Identifier, Item, Reference, Suffix, actual};

/// The items in the one parenthesis that is all that stands behind an identifier.
pub fn only_items(suffixes: &[Suffix]) -> Option<&[Item]>
    ensures { option_copied result ≡ spec.only_items suffixes.now }
{
    match suffixes {
        [Suffix::Items(items)] => Some(items.as_slice()),
        _ => None,
    }
}

/// The actuals of VitalTruthTable: the table and DataIn.
#[derive(Clone, Copy)]
pub struct TableActuals<'a> {
    pub table: &'a Expr,
    pub inputs: &'a Expr,
}

/// Whether each item gives a value.
fn are_given(items: &[Item]) -> bool
    ensures { result ≡ spec.are_given items.now }
{
    items.iter().all(|item| actual(item).is_some())
}

/// Whether what an actual must be is a truth table.
fn is_table(form: Option<ActualForm>) -> bool
    ensures { result ≡ spec.is_table form }
{
    matches!(form, Some(ActualForm::TruthTable))
}

/// Whether the first item of a call of VitalTruthTable is for the table, and not for the inputs.
pub fn table_first(items: &[Item]) -> Option<bool>
    ensures { result ≡ spec.table_first items.now }
{
    let formals = formals_of_function(Function::TruthTable);
    match items.first() {
        Some(first) if !has_wrong_formals(formals, items) && are_given(items) => {
            Some(is_table(form_of(formals, 0, first)))
        }
        _ => None,
    }
}

/// The actuals in an item for the table and one for the inputs.
fn both_actuals<'a>(table: &'a Item, inputs: &'a Item) -> Option<TableActuals<'a>>
    ensures { option_map spec.lent_actuals result ≡ spec.both_actuals table.now inputs.now }
{
    let table = actual(table)?;
    let inputs = actual(inputs)?;
    Some(TableActuals { table, inputs })
}

/// The actuals in two items, where each formal is given once.
pub fn table_actuals(items: &[Item]) -> Option<TableActuals<'_>>
    ensures { option_map spec.lent_actuals result ≡ spec.table_actuals items.now }
{
    match items {
        [first, second] => match table_first(items) {
            Some(true) => both_actuals(first, second),
            Some(false) => both_actuals(second, first),
            None => None,
        },
        _ => None,
    }
}

impl<'a> Position<'a> {
    /// The function that a name means.
    pub fn function_named(&self, identifier: &Identifier) -> Option<Function>
        ensures { result ≡ spec.function_named (lent self.now) identifier.now }
    {
        match self.standing(identifier) {
            Standing::Word(word) => word.as_function(),
            _ => None,
        }
    }

    /// The items of a name that is a call of VitalTruthTable.
    pub fn table_items<'e>(&self, name: &'e Reference) -> Option<&'e [Item]>
        ensures { option_copied result ≡ spec.table_items (lent self.now) name.now }
    {
        let items = only_items(name.suffixes.as_slice())?;
        match self.function_named(&name.identifier) {
            Some(Function::TruthTable) => Some(items),
            _ => None,
        }
    }
}
