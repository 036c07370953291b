//! Calls of procedures as typed statements.

ghost use Rattle.std.specs.Prelude.{◌≡◌, ◌++◌, Some, None, codes, if◌then◌else◌, IfOk, OnOk};
ghost use Rattle.std.specs.Option.{option_copied, option_to_list};
ghost use Rattle.vital_calls.specs.Calls as calls;
ghost use Rattle.vital_calls.specs.Formals as all_formals;
ghost use Rattle.vital_calls.specs.Matching.{actual_of as item_for};
ghost use Rattle.vital_expr.specs.Seen.{lent};
ghost use Rattle.vital_names.specs.Sites as sites;
ghost use Rattle.vital_names.specs.declared.predeclared.Procedure.TheVariants as procedures;
ghost use Rattle.vital_typed_statements.specs.Given as given_spec;
ghost use Rattle.vital_typed_statements.specs.StateTables as tables;
ghost use Rattle.vital_typed_statements.specs.Statements as spec;
ghost use Rattle.vital_typed_statements.specs.Uses as all_uses;
ghost use Rattle.vital_typed_statements.specs.declared.statement.TypedStatement.TheVariants as statement;

use crate::given::{GivenActual, GivenActuals, read_all_given};
use crate::state_table::{fits, has_too_many_states, has_wrong_inputs, has_wrong_kept};
use crate::state_use::state_use;
use crate::statement::TypedStatement;
use sqlite_items::Items;
use std::alloc::AllocError;
use vital_actuals::{place_given, put_fault};
use vital_base::Place;
use vital_call_clauses::has_vector_result;
use vital_calls::{Call, Formals, actual_of, call_of, formals_of_procedure};
use vital_expr::Reader;
use vital_names::{CellNames, Procedure, ProcessNames, Site};
use vital_nodes::{Item, Node, Reference};
use vital_statements::{procedure_of, site_at};
use vital_table_uses::TableUse;

/// Puts the place of the actual for the formal of a name at the end, unless a name in it breaks another clause.
fn put_breach(
    reader: &Reader<'_>,
    formals: Formals,
    items: &[Item],
    name: &[u8],
    broken: &mut Vec<Place>,
) -> Result<(), AllocError>
    ensures { OnOk result (broken.new.items ≡ broken.old.items ++ spec.breach_at (lent reader.now) (item_for items.now (all_formals.lent formals) name.now)) }
{
    match actual_of(items, formals, name) {
        Some(item) => put_fault(reader, Node::Item(item), place_given(item), broken),
        None => Ok(()),
    }
}

/// The same, if it does not go with the other actuals.
fn put_breach_if(
    reader: &Reader<'_>,
    is_broken: bool,
    formals: Formals,
    items: &[Item],
    name: &[u8],
    broken: &mut Vec<Place>,
) -> Result<(), AllocError>
    ensures { OnOk result (broken.new.items ≡ broken.old.items ++ spec.breach_if is_broken (lent reader.now) (all_formals.lent formals) items.now name.now) }
{
    if is_broken {
        put_breach(reader, formals, items, name, broken)
    } else {
        Ok(())
    }
}

/// Puts the place of a number of states that is greater than that of results at the end.
fn put_wrong_states(
    reader: &Reader<'_>,
    formals: Formals,
    items: &[Item],
    given: &[GivenActual],
    broken: &mut Vec<Place>,
) -> Result<(), AllocError>
    ensures { OnOk result (broken.new.items ≡ broken.old.items ++ spec.breach_if (tables.has_too_many_states given.now) (lent reader.now) (all_formals.lent formals) items.now (codes "numstates")) }
{
    put_breach_if(
        reader,
        has_too_many_states(given),
        formals,
        items,
        b"numstates",
        broken,
    )
}

/// Puts the place of inputs that do not go with the columns at the end.
fn put_wrong_inputs(
    reader: &Reader<'_>,
    formals: Formals,
    items: &[Item],
    given: &[GivenActual],
    broken: &mut Vec<Place>,
) -> Result<(), AllocError>
    ensures { OnOk result (broken.new.items ≡ broken.old.items ++ spec.breach_if (tables.has_wrong_inputs given.now) (lent reader.now) (all_formals.lent formals) items.now (codes "datain")) }
{
    put_breach_if(
        reader,
        has_wrong_inputs(given),
        formals,
        items,
        b"datain",
        broken,
    )
}

/// Puts the place of what keeps inputs of which there are not as many at the end.
fn put_wrong_kept(
    reader: &Reader<'_>,
    formals: Formals,
    items: &[Item],
    given: &[GivenActual],
    broken: &mut Vec<Place>,
) -> Result<(), AllocError>
    ensures { OnOk result (broken.new.items ≡ broken.old.items ++ spec.breach_if (tables.has_wrong_kept given.now) (lent reader.now) (all_formals.lent formals) items.now (codes "previousdatain")) }
{
    put_breach_if(
        reader,
        has_wrong_kept(given),
        formals,
        items,
        b"previousdatain",
        broken,
    )
}

/// Puts the places of actuals of a state table that do not go with the others at the end.
fn put_misfits(
    reader: &Reader<'_>,
    formals: Formals,
    items: &[Item],
    given: &[GivenActual],
    broken: &mut Vec<Place>,
) -> Result<(), AllocError>
    ensures { OnOk result (broken.new.items ≡ broken.old.items ++ spec.misfits (lent reader.now) (all_formals.lent formals) items.now given.now) }
{
    put_wrong_states(reader, formals, items, given, broken)?;
    put_wrong_inputs(reader, formals, items, given, broken)?;
    put_wrong_kept(reader, formals, items, given, broken)?;
    Ok(())
}

/// A call whose actuals are all of their forms.
fn typed_call(procedure: Procedure, given: GivenActuals) -> Option<TypedStatement>
    ensures { result ≡ (if given.are_all then Some (statement.Call procedure given.given.items) else None) }
{
    let GivenActuals { given, are_all } = given;
    if are_all {
        Some(TypedStatement::Call(procedure, Items::from_vec(given)))
    } else {
        None
    }
}

/// Puts the use of a table at the end, if there is one.
fn put_use(uses: &mut Vec<TableUse>, used: Option<TableUse>) -> Result<(), AllocError>
    ensures { OnOk result (uses.new.items ≡ uses.old.items ++ option_to_list used) }
{
    if let Some(used) = used {
        uses.push(used)?;
    }
    Ok(())
}

/// A call of VitalStateTable.
fn read_state_table_call(
    reader: &Reader<'_>,
    formals: Formals,
    items: &[Item],
    broken: &mut Vec<Place>,
    uses: &mut Vec<TableUse>,
) -> Result<Option<TypedStatement>, AllocError>
    ensures tree { IfOk result (λ statement. statement ≡ (spec.state_table_call (lent reader.now) (all_formals.lent formals) items.now (given_spec.all_given (lent reader.now) (all_formals.lent formals) items.now)).tree) }
    ensures places { OnOk result (broken.new.items ≡ broken.old.items ++ (spec.state_table_call (lent reader.now) (all_formals.lent formals) items.now (given_spec.all_given (lent reader.now) (all_formals.lent formals) items.now)).places) }
    ensures uses { OnOk result (uses.new.items ≡ uses.old.items ++ all_uses.uses_by (lent reader.now) (all_formals.lent formals) items.now procedures.StateTable) }
{
    let given = read_all_given(reader, formals, items, broken)?;
    put_misfits(reader, formals, items, &given.given, broken)?;
    put_use(uses, state_use(reader, formals, items, &given.given))?;
    if fits(&given.given) {
        Ok(typed_call(Procedure::StateTable, given))
    } else {
        Ok(None)
    }
}

/// A call of a procedure with formals.
fn read_call_by(
    reader: &Reader<'_>,
    formals: Formals,
    items: &[Item],
    procedure: Procedure,
    broken: &mut Vec<Place>,
    uses: &mut Vec<TableUse>,
) -> Result<Option<TypedStatement>, AllocError>
    ensures tree { IfOk result (λ statement. statement ≡ (spec.call_by (lent reader.now) (all_formals.lent formals) items.now procedure).tree) }
    ensures places { OnOk result (broken.new.items ≡ broken.old.items ++ (spec.call_by (lent reader.now) (all_formals.lent formals) items.now procedure).places) }
    ensures uses { OnOk result (uses.new.items ≡ uses.old.items ++ all_uses.uses_by (lent reader.now) (all_formals.lent formals) items.now procedure) }
{
    match procedure {
        Procedure::StateTable => read_state_table_call(reader, formals, items, broken, uses),
        Procedure::WireDelay | Procedure::PathDelay(_) | Procedure::Check(_) => {
            let given = read_all_given(reader, formals, items, broken)?;
            Ok(typed_call(procedure, given))
        }
    }
}

/// A call of a procedure at a site.
fn read_call_of<'a>(
    reader: &Reader<'_>,
    names: &CellNames<'a>,
    site: &Site<'a>,
    items: &[Item],
    procedure: Procedure,
    broken: &mut Vec<Place>,
    uses: &mut Vec<TableUse>,
) -> Result<Option<TypedStatement>, AllocError>
    ensures tree { IfOk result (λ statement. statement ≡ (spec.call_of_procedure (lent reader.now) names.now (sites.lent site.now) items.now procedure).tree) }
    ensures places { OnOk result (broken.new.items ≡ broken.old.items ++ (spec.call_of_procedure (lent reader.now) names.now (sites.lent site.now) items.now procedure).places) }
    ensures uses { OnOk result (uses.new.items ≡ uses.old.items ++ all_uses.uses_of_procedure (lent reader.now) names.now (sites.lent site.now) items.now procedure) }
{
    let formals = formals_of_procedure(procedure, has_vector_result(names, site, items));
    read_call_by(reader, formals, items, procedure, broken, uses)
}

/// A call of what it means.
fn read_meant<'a>(
    reader: &Reader<'_>,
    names: &CellNames<'a>,
    process: Option<&'a ProcessNames<'a>>,
    call: Call<'_>,
    broken: &mut Vec<Place>,
    uses: &mut Vec<TableUse>,
) -> Result<Option<TypedStatement>, AllocError>
    ensures tree { IfOk result (λ statement. statement ≡ (spec.call_meant (lent reader.now) names.now (option_copied process.entry) (calls.lent call.entry)).tree) }
    ensures places { OnOk result (broken.new.items ≡ broken.old.items ++ (spec.call_meant (lent reader.now) names.now (option_copied process.entry) (calls.lent call.entry)).places) }
    ensures uses { OnOk result (uses.new.items ≡ uses.old.items ++ all_uses.uses_meant (lent reader.now) names.now (option_copied process.entry) (calls.lent call.entry)) }
{
    match procedure_of(names, process, call) {
        Some(procedure) => {
            let site = site_at(process, call.identifier.place);
            read_call_of(reader, names, &site, call.items, procedure, broken, uses)
        }
        None => Ok(Some(TypedStatement::Other)),
    }
}

/// A name that is a call, and where an actual of it is not of its form. Where it is none, or no predeclared procedure is called,
/// nothing is asked. The reader stands in the process, or in none.
pub fn read_call<'a>(
    reader: &Reader<'_>,
    names: &CellNames<'a>,
    process: Option<&'a ProcessNames<'a>>,
    name: &Reference,
    broken: &mut Vec<Place>,
    uses: &mut Vec<TableUse>,
) -> Result<Option<TypedStatement>, AllocError>
    ensures tree { IfOk result (λ statement. statement ≡ (spec.call_statement (lent reader.now) names.now (option_copied process.entry) name.now).tree) }
    ensures places { OnOk result (broken.new.items ≡ broken.old.items ++ (spec.call_statement (lent reader.now) names.now (option_copied process.entry) name.now).places) }
    ensures uses { OnOk result (uses.new.items ≡ uses.old.items ++ all_uses.call_uses (lent reader.now) names.now (option_copied process.entry) name.now) }
{
    match call_of(name) {
        Some(call) => read_meant(reader, names, process, call, broken, uses),
        None => Ok(Some(TypedStatement::Other)),
    }
}
