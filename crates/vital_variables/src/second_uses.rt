//! Variables that are used or assigned once more than they may be.

ghost use Rattle.std.specs.Prelude.{◌≡◌, [], ◌∷◌, ◌++◌, ◌&&◌, filter, map, is_some, IfOk, OnOk};
ghost use Rattle.std.specs.List.{flat_map};
ghost use Rattle.std.specs.Option.{option_copied};
ghost use Rattle.vital_names.specs.FirstNames.{first_in};
ghost use Rattle.vital_nodes.specs.Statements.{all_sequential};
ghost use Rattle.vital_uses.specs.NamesAt.{lent_name};
ghost use Rattle.vital_variables.specs.SecondUses as spec;

use crate::formal_use::FormalUse;
use crate::given::{given, put_given_in_call};
use crate::variables::{direct_uses, uses, uses_through};
use std::alloc::{AllocError, Global};
use vital_base::Place;
use vital_names::{CellNames, ProcessNames};
use vital_nodes::{Identifier, Stmt};
use vital_uses::{CellUses, FirstPlaces, NameAt, ProcessUses, first_places};

/// Whether there is a first place and it is another than this.
fn is_elsewhere(place: Place, first: Option<&Place>) -> bool
    ensures { result ≡ spec.is_elsewhere place (option_copied first.entry) }
{
    match first {
        Some(first) => *first != place,
        None => false,
    }
}

/// Puts the places of uses at the end that are not the first of their variable.
fn put_second<'a>(
    places: &mut Vec<Place>,
    firsts: &FirstPlaces<'a>,
    uses: &[NameAt<'a>],
) -> Result<(), AllocError>
    ensures { OnOk result (places.new.items ≡ places.old.items ++ map (λ u. u.place) (filter (λ u. spec.is_elsewhere u.place (first_in firsts.now u.name)) (map lent_name uses.now))) }
{
    for one in uses {
        put_if_second(places, firsts, *one)?;
    }
    Ok(())
}

/// Puts the place of a use at the end if it is not the first of its variable.
fn put_if_second<'a>(
    places: &mut Vec<Place>,
    firsts: &FirstPlaces<'a>,
    one: NameAt<'a>,
) -> Result<(), AllocError>
    ensures { OnOk result (places.new.items ≡ places.old.items ++ map (λ u. u.place) (filter (λ u. spec.is_elsewhere u.place (first_in firsts.now u.name)) (lent_name one.entry ∷ []))) }
{
    if is_elsewhere(one.place, firsts.get(one.name)) {
        places.push(one.place)?;
    }
    Ok(())
}

/// Those uses whose names a map has.
fn among<'a>(
    alloc: Global,
    names: &FirstPlaces<'a>,
    uses: &[NameAt<'a>],
) -> Result<Vec<NameAt<'a>>, AllocError>
    ensures { IfOk result (λ among. map lent_name among.items ≡ filter (λ u. is_some (first_in names.now u.name)) (map lent_name uses.now)) }
{
    let mut among = Vec::new(alloc);
    for one in uses {
        put_if_among(&mut among, names, *one)?;
    }
    Ok(among)
}

/// Puts a use at the end if a map has its name.
fn put_if_among<'a>(
    among: &mut Vec<NameAt<'a>>,
    names: &FirstPlaces<'a>,
    one: NameAt<'a>,
) -> Result<(), AllocError>
    ensures { OnOk result (map lent_name among.new.items ≡ map lent_name among.old.items ++ filter (λ u. is_some (first_in names.now u.name)) (lent_name one.entry ∷ [])) }
{
    if names.contains_key(one.name) {
        among.push(one)?;
    }
    Ok(())
}

/// The identifiers that statements of a process assign, in order.
fn assigned<'a>(
    alloc: Global,
    names: &CellNames<'a>,
    process: &'a ProcessNames<'a>,
    statements: &[&'a Stmt],
) -> Result<Vec<&'a Identifier>, AllocError>
    ensures { IfOk result (λ assigned. map (λ i. i.now) assigned.items ≡ flat_map (spec.assigned names.now process.now) (map (λ s. s.now) statements.now)) }
{
    let mut assigned = Vec::new(alloc);
    for stmt in statements {
        put_assigned(&mut assigned, names, process, stmt)?;
    }
    Ok(assigned)
}

/// Puts the identifiers that a statement assigns at the end.
fn put_assigned<'a>(
    assigned: &mut Vec<&'a Identifier>,
    names: &CellNames<'a>,
    process: &'a ProcessNames<'a>,
    stmt: &'a Stmt,
) -> Result<(), AllocError>
    ensures { OnOk result (map (λ i. i.now) assigned.new.items ≡ map (λ i. i.now) assigned.old.items ++ spec.assigned names.now process.now stmt.now) }
{
    match stmt {
        Stmt::VariableAssignment(_, assignment) => {
            Ok(assigned.push(&assignment.target.identifier)?)
        }
        Stmt::Call(_, name) => {
            put_given_in_call(assigned, FormalUse::Assigned, names, process, name)
        }
        Stmt::SignalAssignment(_, _) | Stmt::If(_, _) | Stmt::Null(_) => Ok(()),
    }
}

/// The uses of variables of a process that are given to formals with which procedures do this, in order.
fn given_uses<'a>(
    alloc: Global,
    formals: FormalUse,
    process: &ProcessUses<'a>,
) -> Result<Vec<NameAt<'a>>, AllocError>
    ensures { IfOk result (λ uses. map lent_name uses.items ≡ spec.given_uses formals process.now.0 process.now.1) }
{
    let names = process.names();
    let identifiers = given(
        alloc,
        formals,
        names,
        process.process(),
        process.statements(),
    )?;
    direct_uses(alloc, names, process.process(), &identifiers)
}

/// Where variables of a process are assigned, in order.
fn assignments<'a>(alloc: Global, process: &ProcessUses<'a>) -> Result<Vec<NameAt<'a>>, AllocError>
    ensures { IfOk result (λ uses. map lent_name uses.items ≡ spec.assignments process.now.0 process.now.1) }
{
    let names = process.names();
    let identifiers = assigned(alloc, names, process.process(), process.statements())?;
    uses_through(alloc, names, process.process(), &identifiers)
}

/// Puts the places of all other uses of the variables in which procedures keep their states at the end.
fn put_second_uses<'a>(
    alloc: Global,
    places: &mut Vec<Place>,
    process: &ProcessUses<'a>,
) -> Result<(), AllocError>
    ensures { OnOk result (places.new.items ≡ places.old.items ++ map (λ u. u.place) (spec.second_uses process.now.0 process.now.1)) }
{
    let states = given_uses(alloc, FormalUse::State, process)?;
    let firsts = first_places(alloc, &states)?;
    let uses = uses(alloc, process.asked())?;
    put_second(places, &firsts, &uses)?;
    Ok(())
}

/// The assignments of those variables of a process that tell violations, among all assignments.
fn violation_assignments<'a>(
    alloc: Global,
    process: &ProcessUses<'a>,
    assignments: &[NameAt<'a>],
) -> Result<Vec<NameAt<'a>>, AllocError>
    requires { map lent_name assignments.now ≡ spec.assignments process.now.0 process.now.1 }
    ensures { IfOk result (λ uses. map lent_name uses.items ≡ spec.violation_assignments process.now.0 process.now.1) }
{
    let violations = given_uses(alloc, FormalUse::Violation, process)?;
    let violations = first_places(alloc, &violations)?;
    among(alloc, &violations, assignments)
}

/// Puts the places of all later assignments of the variables that tell violations at the end.
fn put_second_assignments<'a>(
    alloc: Global,
    places: &mut Vec<Place>,
    process: &ProcessUses<'a>,
) -> Result<(), AllocError>
    ensures { OnOk result (places.new.items ≡ places.old.items ++ map (λ u. u.place) (spec.second_assignments process.now.0 process.now.1)) }
{
    let all = assignments(alloc, process)?;
    let firsts = first_places(alloc, &all)?;
    let assignments = violation_assignments(alloc, process, &all)?;
    put_second(places, &firsts, &assignments)?;
    Ok(())
}

/// Puts the places of all second or other uses and of all second assignments in a process at the end.
fn put_used_again<'a>(
    alloc: Global,
    places: &mut Vec<Place>,
    process: &ProcessUses<'a>,
) -> Result<(), AllocError>
    ensures { OnOk result (places.new.items ≡ places.old.items ++ spec.used_again process.now.0 process.now.1) }
{
    put_second_uses(alloc, places, process)?;
    put_second_assignments(alloc, places, process)?;
    Ok(())
}

/// Puts the places of all second or other uses and of all second assignments in processes at the end.
fn put_all_used_again<'a>(
    alloc: Global,
    places: &mut Vec<Place>,
    processes: &[ProcessUses<'a>],
) -> Result<(), AllocError>
    ensures { OnOk result (places.new.items ≡ places.old.items ++ flat_map (λ u. spec.used_again u.0 u.1) processes.now) }
{
    for process in processes {
        put_used_again(alloc, places, process)?;
    }
    Ok(())
}

/// The places of second or other uses of the variables in which procedures keep their states, and of second assignments of those that
/// tell violations, which break clause L1.13.
pub fn clause_13<'a>(alloc: Global, uses: &CellUses<'a>) -> Result<Vec<Place>, AllocError>
    ensures { IfOk result (λ places. places.items ≡ spec.clause_13 uses.now) }
{
    let mut places = Vec::new(alloc);
    put_all_used_again(alloc, &mut places, uses.processes())?;
    Ok(places)
}
