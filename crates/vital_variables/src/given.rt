//! What is given to formals in the calls of processes.

ghost use Rattle.std.specs.Prelude.{◌≡◌, [], ◌++◌, map, IfOk, OnOk};
ghost use Rattle.std.specs.List.{cons_option, filter_map, flat_map};
ghost use Rattle.std.specs.Option.{option_copied};
ghost use Rattle.vital_variables.specs.Given as spec;

use crate::formal_use::FormalUse;
use crate::meant::meant;
use std::alloc::{AllocError, Global};
use vital_calls::{ActualForm, form_of, formals_of_procedure};
use vital_names::{CellNames, Procedure, ProcessNames};
use vital_nodes::{Identifier, Item, Reference, Stmt, actual, call_items, identifier_of};

/// What the formal that an item is for asks of its actual. The formals that are asked about here come by their names alone, and are
/// the same in both kinds of state table.
#[tactic(auto, unfolding(crate::specs::Given::form_for))]
fn form_for(procedure: Procedure, item: &Item) -> Option<ActualForm>
    ensures { result ≡ spec.form_for procedure item.now }
{
    form_of(formals_of_procedure(procedure, false), 0, item)
}

/// Whether an item is for a formal with which a procedure does this.
fn is_given(formals: FormalUse, procedure: Procedure, item: &Item) -> bool
    ensures { result ≡ spec.is_given formals procedure item.now }
{
    match form_for(procedure, item) {
        Some(form) => formals.is_of(form),
        None => false,
    }
}

/// The identifier that an item gives alone.
fn identifier_given(item: &Item) -> Option<&Identifier>
    ensures { option_copied result ≡ spec.identifier_given item.now }
{
    match actual(item) {
        Some(value) => identifier_of(value),
        None => None,
    }
}

/// The identifier that an item gives alone to a formal with which a procedure does this.
fn given_by<'a>(formals: FormalUse, procedure: Procedure, item: &'a Item) -> Option<&'a Identifier>
    ensures { option_copied result ≡ spec.given_by formals procedure item.now }
{
    match identifier_given(item) {
        Some(identifier) if is_given(formals, procedure, item) => Some(identifier),
        _ => None,
    }
}

/// The predeclared procedure that the name of a call in a process means, if it means one.
fn called<'a>(
    names: &CellNames<'a>,
    process: &'a ProcessNames<'a>,
    name: &'a Reference,
) -> Option<Procedure>
    ensures { result ≡ spec.called names.now process.now name.now }
{
    match meant(names, process, &name.identifier) {
        Some(meaning) => meaning.procedure(),
        None => None,
    }
}

/// Puts the identifiers that a call gives alone to formals with which its procedure does this at the end.
pub fn put_given_in_call<'a>(
    given: &mut Vec<&'a Identifier>,
    formals: FormalUse,
    names: &CellNames<'a>,
    process: &'a ProcessNames<'a>,
    name: &'a Reference,
) -> Result<(), AllocError>
    ensures { OnOk result (map (λ i. i.now) given.new.items ≡ map (λ i. i.now) given.old.items ++ spec.given_in_call formals names.now process.now name.now) }
{
    match called(names, process, name) {
        Some(procedure) => put_given(given, formals, procedure, call_items(name)),
        None => Ok(()),
    }
}

/// Puts the identifiers that items give alone to formals with which a procedure does this at the end.
fn put_given<'a>(
    given: &mut Vec<&'a Identifier>,
    formals: FormalUse,
    procedure: Procedure,
    items: &'a [Item],
) -> Result<(), AllocError>
    ensures { OnOk result (map (λ i. i.now) given.new.items ≡ map (λ i. i.now) given.old.items ++ filter_map (spec.given_by formals procedure) items.now) }
{
    for item in items {
        put_if_there(given, given_by(formals, procedure, item))?;
    }
    Ok(())
}

/// Puts an identifier at the end if it is there.
fn put_if_there<'a>(
    given: &mut Vec<&'a Identifier>,
    identifier: Option<&'a Identifier>,
) -> Result<(), AllocError>
    ensures { OnOk result (map (λ i. i.now) given.new.items ≡ map (λ i. i.now) given.old.items ++ cons_option (option_copied identifier.entry) []) }
{
    if let Some(identifier) = identifier {
        given.push(identifier)?;
    }
    Ok(())
}

/// The identifiers that statements of a process give alone to formals with which the procedures do this, in order.
pub fn given<'a>(
    alloc: Global,
    formals: FormalUse,
    names: &CellNames<'a>,
    process: &'a ProcessNames<'a>,
    statements: &[&'a Stmt],
) -> Result<Vec<&'a Identifier>, AllocError>
    ensures { IfOk result (λ given. map (λ i. i.now) given.items ≡ flat_map (spec.given formals names.now process.now) (map (λ s. s.now) statements.now)) }
{
    let mut given = Vec::new(alloc);
    for stmt in statements {
        put_given_in(&mut given, formals, names, process, stmt)?;
    }
    Ok(given)
}

/// Puts the identifiers that a statement of a process gives alone to such formals at the end.
fn put_given_in<'a>(
    given: &mut Vec<&'a Identifier>,
    formals: FormalUse,
    names: &CellNames<'a>,
    process: &'a ProcessNames<'a>,
    stmt: &'a Stmt,
) -> Result<(), AllocError>
    ensures { OnOk result (map (λ i. i.now) given.new.items ≡ map (λ i. i.now) given.old.items ++ spec.given formals names.now process.now stmt.now) }
{
    match stmt {
        Stmt::Call(_, name) => put_given_in_call(given, formals, names, process, name),
        _ => Ok(()),
    }
}
