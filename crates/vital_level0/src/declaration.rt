//! The declarations of an entity.

ghost use Rattle.std.specs.Prelude.{◌≡◌};
ghost use Rattle.vital_level0.specs.Clauses.{is_entity_class, is_level_0, is_level_0_specification, is_named, is_true};

use vital_nodes::{Decl, Designator, EntityClass, Expr, Specification, identifier_of};

/// Whether a declaration is the attribute specification of Level 0 of the entity of this name.
pub fn is_level_0(name: &[u8], declaration: &Decl) -> bool
    ensures { result ≡ is_level_0 name.now declaration.now }
{
    match declaration {
        Decl::Specification(specification) => is_level_0_specification(name, specification),
        _ => false,
    }
}

/// Whether a specification is `attribute VITAL_LEVEL0 of E : entity is TRUE`, where E has this name.
fn is_level_0_specification(name: &[u8], specification: &Specification) -> bool
    ensures { result ≡ is_level_0_specification name.now specification.now }
{
    specification.identifier.name.as_slice() == b"vital_level0".as_slice()
        && is_named(name, &specification.designator)
        && specification.class == EntityClass::Entity
        && is_true(&specification.value)
}

/// Whether a designator is the identifier of this name.
fn is_named(name: &[u8], designator: &Designator) -> bool
    ensures { result ≡ is_named name.now designator.now }
{
    match designator {
        Designator::Identifier(identifier) => identifier.name.as_slice() == name,
        Designator::All | Designator::Others => false,
    }
}

/// Whether an expression is the identifier TRUE.
pub fn is_true(value: &Expr) -> bool
    ensures { result ≡ is_true value.now }
{
    match identifier_of(value) {
        Some(identifier) => identifier.name.as_slice() == b"true".as_slice(),
        None => false,
    }
}
