//! Calls whose items are wrong for the formals of what is called.

ghost use Rattle.std.specs.Prelude.{◌≡◌, is_some};
ghost use Rattle.std.specs.Option.{option_and_then, option_copied, option_map};
ghost use Rattle.vital_call_clauses.specs.WrongCalls as spec;
ghost use Rattle.vital_calls.specs.Calls.{lent};
ghost use Rattle.vital_declarations.specs.Operands as operands;
ghost use Rattle.vital_names.specs.Kinds.{as_function};
ghost use Rattle.vital_names.specs.Sites as sites;
ghost use Rattle.vital_names.specs.Words.{predeclared};

use vital_calls::{
    Call, actual_of, call_of, formals_of_function, formals_of_procedure, has_wrong_formals,
};
use vital_declarations::{OperandKind, VariableType, operand_kind};
use vital_names::{CellNames, Function, Procedure, Site};
use vital_nodes::{Identifier, Item, Reference, actual, identifier_of};

// ---- functions

/// Whether a name is a call of a function with items that are wrong for it.
pub fn is_wrong_for(name: &Reference, function: Function) -> bool
    ensures { result ≡ spec.is_wrong_for name.now function }
{
    match call_of(name) {
        Some(call) => has_wrong_formals(formals_of_function(function), call.items),
        None => false,
    }
}

/// Whether a name is predeclared as a function.
fn is_function_word(names: &CellNames<'_>, word: &[u8]) -> bool
    ensures { result ≡ is_some (option_and_then as_function (predeclared word.now)) }
{
    match names.predeclared(word) {
        Some(predeclared) => predeclared.as_function().is_some(),
        None => false,
    }
}

/// The predeclared function that the identifier of a name means at a site. Most names are no such word, which is asked first.
fn function_at<'a>(names: &CellNames<'a>, site: &Site<'a>, name: &Reference) -> Option<Function>
    ensures { result ≡ spec.function_at names.now (sites.lent site.now) name.now }
{
    let word = name.identifier.name.as_slice();
    if !is_function_word(names, word) {
        return None;
    }
    match names.meaning(word, site) {
        Some(meaning) => meaning.function(),
        None => None,
    }
}

/// Whether a name at a site is a call of a predeclared function with items that are wrong for it.
pub fn is_wrong_function<'a>(names: &CellNames<'a>, site: &Site<'a>, name: &Reference) -> bool
    ensures { result ≡ spec.is_wrong_function names.now (sites.lent site.now) name.now }
{
    match function_at(names, site, name) {
        Some(function) => is_wrong_for(name, function),
        None => false,
    }
}

// ---- procedures

/// Whether an operand is a vector variable.
fn is_vector_kind(kind: OperandKind<'_>) -> bool
    ensures { result ≡ spec.is_vector_kind (operands.lent kind.entry) }
{
    matches!(kind, OperandKind::Variable(VariableType::Vector(_)))
}

/// Whether an identifier means a vector variable at a site.
fn is_vector<'a>(names: &CellNames<'a>, site: &Site<'a>, identifier: &Identifier) -> bool
    ensures { result ≡ spec.is_vector names.now (sites.lent site.now) identifier.now }
{
    match names.declared(identifier.name.as_slice(), site) {
        Some(declared) => is_vector_kind(operand_kind(names, site, declared)),
        None => false,
    }
}

/// The identifier that is given alone to the formal Result of VitalStateTable.
fn result_given(items: &[Item]) -> Option<&Identifier>
    ensures { option_copied result ≡ spec.result_given items.now }
{
    let item = actual_of(
        items,
        formals_of_procedure(Procedure::StateTable, false),
        b"result",
    )?;
    identifier_of(actual(item)?)
}

/// Whether items give a vector variable to the formal Result of VitalStateTable.
pub fn has_vector_result<'a>(names: &CellNames<'a>, site: &Site<'a>, items: &[Item]) -> bool
    ensures { result ≡ spec.has_vector_result names.now (sites.lent site.now) items.now }
{
    match result_given(items) {
        Some(identifier) => is_vector(names, site, identifier),
        None => false,
    }
}

/// The predeclared procedure that a call at a site is of.
fn procedure_at<'a>(names: &CellNames<'a>, site: &Site<'a>, call: Call<'_>) -> Option<Procedure>
    ensures { result ≡ spec.procedure_at names.now (sites.lent site.now) (lent call.entry) }
{
    match names.meaning(call.identifier.name.as_slice(), site) {
        Some(meaning) => meaning.procedure(),
        None => None,
    }
}

/// Whether items at a site are wrong for the formals of a procedure.
fn is_wrong_in<'a>(
    names: &CellNames<'a>,
    site: &Site<'a>,
    items: &[Item],
    procedure: Procedure,
) -> bool
    ensures { result ≡ spec.is_wrong_in names.now (sites.lent site.now) items.now procedure }
{
    let formals = formals_of_procedure(procedure, has_vector_result(names, site, items));
    has_wrong_formals(formals, items)
}

/// Whether a call at a site is of a predeclared procedure with items that are wrong for it.
pub fn is_wrong_procedure<'a>(names: &CellNames<'a>, site: &Site<'a>, call: Call<'_>) -> bool
    ensures { result ≡ spec.is_wrong_procedure names.now (sites.lent site.now) (lent call.entry) }
{
    match procedure_at(names, site, call) {
        Some(procedure) => is_wrong_in(names, site, call.items, procedure),
        None => false,
    }
}
