//! The identifiers that declarations and units declare.

ghost use Rattle.std.specs.Prelude.{◌≡◌};
ghost use Rattle.vital_nodes.specs.declared.identifier.Identifier.{Identifier as Identifier'};
ghost use Rattle.vital_nodes.specs.Places.{identifier_of_decl, identifier_of_unit};

use crate::decl::{Decl, Iface};
use crate::identifier::Identifier;
use crate::unit::Unit;

/// What has an identifier of its own.
pub trait HasIdentifier {
    ghost identifier_is: { Self → Identifier' };

    /// The identifier that it declares. An attribute specification has that of its attribute.
    fn identifier(&self) -> &Identifier
        ensures { result.now ≡ identifier_is self.now };
}

impl HasIdentifier for Decl {
    ghost identifier_is = { identifier_of_decl };

    fn identifier(&self) -> &Identifier {
        match self {
            Decl::Attribute(identifier, _) => identifier,
            Decl::Specification(specification) => &specification.identifier,
            Decl::Object(object) => &object.identifier,
            Decl::Alias(alias) => &alias.identifier,
            Decl::Component(component) => &component.identifier,
        }
    }
}

impl HasIdentifier for Iface {
    ghost identifier_is = { λ i. i.identifier };

    fn identifier(&self) -> &Identifier {
        &self.identifier
    }
}

impl HasIdentifier for Unit {
    ghost identifier_is = { identifier_of_unit };

    fn identifier(&self) -> &Identifier {
        match self {
            Unit::Entity(entity) => &entity.identifier,
            Unit::Arch(arch) => &arch.identifier,
            Unit::Pack(pack) => &pack.identifier,
            Unit::Config(config) => &config.identifier,
        }
    }
}
