//! L1.1: the attribute of the architecture.

ghost use Rattle.std.specs.Prelude.{◌≡◌, IfOk};
ghost use Rattle.std.specs.List.{list_any};
ghost use Rattle.std.specs.Option.{option_copied};
ghost use Rattle.vital_statements.specs.Clauses.{clause_1, is_level_1, is_level_1_specification, is_named, is_true, unspecified};

use crate::places::put_if;
use std::alloc::{AllocError, Global};
use vital_base::Place;
use vital_names::CellNames;
use vital_nodes::{
    Arch, Decl, Designator, Entity, EntityClass, Expr, Specification, identifier_of,
};

/// The places where L1.1 is broken: the identifier of an entity without architecture, or that of the architecture if
/// `attribute VITAL_LEVEL1 of A : architecture is TRUE` does not stand among its declarations.
pub fn clause_1(alloc: Global, names: &CellNames<'_>) -> Result<Vec<Place>, AllocError>
    ensures { IfOk result (λ places. places.items ≡ clause_1 names.now) }
{
    unspecified(alloc, names.entity(), names.arch())
}

/// The identifier of an entity without architecture, or that of an architecture without that specification.
fn unspecified(
    alloc: Global,
    entity: &Entity,
    arch: Option<&Arch>,
) -> Result<Vec<Place>, AllocError>
    ensures { IfOk result (λ places. places.items ≡ unspecified entity.now (option_copied arch.entry)) }
{
    let mut places = Vec::new(alloc);
    match arch {
        Some(arch) => {
            put_if(&mut places, !is_specified(arch), arch.identifier.place)?;
        }
        None => places.push(entity.identifier.place)?,
    }
    Ok(places)
}

/// Whether that specification stands among the declarations of an architecture.
fn is_specified(arch: &Arch) -> bool
    ensures { result ≡ list_any (is_level_1 arch.now.identifier.name) arch.now.declarations }
{
    let name = arch.identifier.name.as_slice();
    arch.declarations
        .as_slice()
        .iter()
        .any(|declaration| is_level_1(name, declaration))
}

/// Whether a declaration is the attribute specification of Level 1 of the architecture of this name.
fn is_level_1(name: &[u8], declaration: &Decl) -> bool
    ensures { result ≡ is_level_1 name.now declaration.now }
{
    match declaration {
        Decl::Specification(specification) => is_level_1_specification(name, specification),
        _ => false,
    }
}

/// Whether a specification is `attribute VITAL_LEVEL1 of A : architecture is TRUE`, where A has this name.
fn is_level_1_specification(name: &[u8], specification: &Specification) -> bool
    ensures { result ≡ is_level_1_specification name.now specification.now }
{
    specification.identifier.name.as_slice() == b"vital_level1".as_slice()
        && is_named(name, &specification.designator)
        && specification.class == EntityClass::Architecture
        && is_true(&specification.value)
}

/// Whether a designator is the identifier of this name.
fn is_named(name: &[u8], designator: &Designator) -> bool
    ensures { result ≡ is_named name.now designator.now }
{
    match designator {
        Designator::Identifier(identifier) => identifier.name.as_slice() == name,
        Designator::All | Designator::Others => false,
    }
}

/// Whether an expression is the identifier TRUE.
fn is_true(value: &Expr) -> bool
    ensures { result ≡ is_true value.now }
{
    match identifier_of(value) {
        Some(identifier) => identifier.name.as_slice() == b"true".as_slice(),
        None => false,
    }
}
