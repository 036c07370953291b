//! The variables that identifiers in a process mean.

ghost use Rattle.std.specs.Prelude.{◌≡◌, [], ◌++◌, map, IfOk, OnOk};
ghost use Rattle.std.specs.List.{cons_option, filter_map};
ghost use Rattle.std.specs.Option.{option_map};
ghost use Rattle.vital_names.specs.Declarations as declarations;
ghost use Rattle.vital_names.specs.Meanings as meanings;
ghost use Rattle.vital_uses.specs.Asked.{lent_asked};
ghost use Rattle.vital_uses.specs.NamesAt.{lent_name};
ghost use Rattle.vital_variables.specs.Variables as spec;

use crate::meant::{meant, meant_from};
use std::alloc::{AllocError, Global};
use vital_base::Place;
use vital_names::{CellNames, Declared, Meaning, ProcessNames};
use vital_nodes::{Alias, Identifier, ObjectClass};
use vital_uses::{Asked, NameAt};

/// Whether a meaning is a variable.
fn means_variable(meaning: Option<Meaning<'_>>) -> bool
    ensures { result ≡ spec.means_variable (option_map meanings.lent meaning.entry) }
{
    match meaning {
        Some(Meaning::Declared(Declared::Object(object))) => {
            matches!(object.class, ObjectClass::Variable)
        }
        _ => false,
    }
}

/// The use of a variable by an identifier that means it.
fn use_of<'a>(asked: Asked<'a>) -> Option<NameAt<'a>>
    ensures { option_map lent_name result ≡ spec.use_of (lent_asked asked.entry) }
{
    if means_variable(asked.meaning) {
        Some(NameAt::of(asked.identifier))
    } else {
        None
    }
}

/// The uses of variables by identifiers, in order.
pub fn uses<'a>(alloc: Global, asked: &[Asked<'a>]) -> Result<Vec<NameAt<'a>>, AllocError>
    ensures { IfOk result (λ uses. map lent_name uses.items ≡ filter_map spec.use_of (map lent_asked asked.now)) }
{
    let mut uses = Vec::new(alloc);
    for one in asked {
        put_use(&mut uses, use_of(*one))?;
    }
    Ok(uses)
}

/// Puts a use at the end if there is one.
fn put_use<'a>(uses: &mut Vec<NameAt<'a>>, one: Option<NameAt<'a>>) -> Result<(), AllocError>
    ensures { OnOk result (map lent_name uses.new.items ≡ map lent_name uses.old.items ++ cons_option (option_map lent_name one.entry) []) }
{
    if let Some(one) = one {
        uses.push(one)?;
    }
    Ok(())
}

/// The use of a variable by an identifier of a process that means it where it stands.
fn direct_use<'a>(
    names: &CellNames<'a>,
    process: &'a ProcessNames<'a>,
    identifier: &'a Identifier,
) -> Option<NameAt<'a>>
    ensures { option_map lent_name result ≡ spec.direct_use names.now process.now identifier.now }
{
    use_of(Asked {
        identifier,
        meaning: meant(names, process, identifier),
    })
}

/// The uses of variables by identifiers of a process that mean them where they stand, in order.
pub fn direct_uses<'a>(
    alloc: Global,
    names: &CellNames<'a>,
    process: &'a ProcessNames<'a>,
    identifiers: &[&'a Identifier],
) -> Result<Vec<NameAt<'a>>, AllocError>
    ensures { IfOk result (λ uses. map lent_name uses.items ≡ filter_map (spec.direct_use names.now process.now) (map (λ i. i.now) identifiers.now)) }
{
    let mut uses = Vec::new(alloc);
    for identifier in identifiers {
        put_use(&mut uses, direct_use(names, process, identifier))?;
    }
    Ok(uses)
}

/// The use at a place of the variable that the target of an alias begins with.
fn use_by_alias<'a>(
    names: &CellNames<'a>,
    process: &'a ProcessNames<'a>,
    place: Place,
    alias: &'a Alias,
) -> Option<NameAt<'a>>
    ensures { option_map lent_name result ≡ spec.use_by_alias names.now process.now place alias.now }
{
    let target = &alias.target.identifier;
    if means_variable(meant_from(names, process, alias.identifier.place, target)) {
        Some(NameAt {
            name: target.name.as_slice(),
            place,
        })
    } else {
        None
    }
}

/// The use of a variable by an identifier of a process that means it, or an alias of it, where it stands.
fn use_through<'a>(
    names: &CellNames<'a>,
    process: &'a ProcessNames<'a>,
    identifier: &'a Identifier,
) -> Option<NameAt<'a>>
    ensures { option_map lent_name result ≡ spec.use_through names.now process.now identifier.now }
{
    match meant(names, process, identifier) {
        Some(Meaning::Declared(declared)) => {
            use_by_declared(names, process, identifier.place, declared)
        }
        _ => None,
    }
}

/// The use at a place of what is declared, if it is a variable or an alias of one.
fn use_by_declared<'a>(
    names: &CellNames<'a>,
    process: &'a ProcessNames<'a>,
    place: Place,
    declared: Declared<'a>,
) -> Option<NameAt<'a>>
    ensures { option_map lent_name result ≡ spec.use_by_declared names.now process.now place (declarations.lent declared.entry) }
{
    match declared {
        Declared::Object(object) if matches!(object.class, ObjectClass::Variable) => {
            let name = object.identifier.name.as_slice();
            Some(NameAt { name, place })
        }
        Declared::Alias(alias) => use_by_alias(names, process, place, alias),
        _ => None,
    }
}

/// The uses of variables by identifiers of a process that mean them, or aliases of them, in order.
pub fn uses_through<'a>(
    alloc: Global,
    names: &CellNames<'a>,
    process: &'a ProcessNames<'a>,
    identifiers: &[&'a Identifier],
) -> Result<Vec<NameAt<'a>>, AllocError>
    ensures { IfOk result (λ uses. map lent_name uses.items ≡ filter_map (spec.use_through names.now process.now) (map (λ i. i.now) identifiers.now)) }
{
    let mut uses = Vec::new(alloc);
    for identifier in identifiers {
        put_use(&mut uses, use_through(names, process, identifier))?;
    }
    Ok(uses)
}
