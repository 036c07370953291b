//! What the ports and declarations of a netlist unit give.

ghost use Rattle.std.specs.Prelude.{◌≡◌};
ghost use Rattle.std.specs.Option.{option_map};
ghost use Rattle.vital_structure.specs.Contents as spec;
ghost use Rattle.vital_structure.specs.Signals as signals;

use crate::unit_signal::{UnitSignal, object_signal, port_signal};
use vital_base::Place;
use vital_names::LibraryNames;
use vital_nodes::{Decl, Identifier, Iface, Object, ObjectClass};

/// What a port or a declaration gives its unit.
#[derive(Clone, Copy)]
pub enum Content<'a> {
    Signal(UnitSignal<'a>),
    /// A port or a signal with a type or a default that it may not have.
    WrongType(&'a Identifier),
    /// A declaration that stands in no netlist, at its place.
    NotStructural(Place),
    /// A declaration without effect.
    Nothing,
}

/// What a port or a signal gives, if its type and its default are ones that it may have.
fn signal_content<'a>(identifier: &'a Identifier, signal: Option<UnitSignal<'a>>) -> Content<'a>
    ensures { spec.lent result ≡ spec.signal_content identifier.now (option_map signals.lent signal.entry) }
{
    match signal {
        Some(signal) => Content::Signal(signal),
        None => Content::WrongType(identifier),
    }
}

/// What a port gives.
pub fn content_of_port<'a>(library: &LibraryNames<'_>, port: &'a Iface) -> Content<'a>
    ensures { spec.lent result ≡ spec.content_of_port port.now }
{
    signal_content(&port.identifier, port_signal(library, port))
}

/// What an object gives.
fn content_of_object<'a>(library: &LibraryNames<'_>, object: &'a Object) -> Content<'a>
    ensures { spec.lent result ≡ spec.content_of_object object.now.«class» object.now }
{
    match object.class {
        ObjectClass::Signal => signal_content(&object.identifier, object_signal(library, object)),
        ObjectClass::Constant | ObjectClass::Variable => {
            Content::NotStructural(object.identifier.place)
        }
    }
}

/// What a declaration gives.
pub fn content_of_decl<'a>(library: &LibraryNames<'_>, decl: &'a Decl) -> Content<'a>
    ensures { spec.lent result ≡ spec.content_of_decl decl.now }
{
    match decl {
        Decl::Object(object) => content_of_object(library, object),
        Decl::Alias(alias) => Content::NotStructural(alias.identifier.place),
        Decl::Attribute(_, _) | Decl::Specification(_) | Decl::Component(_) => Content::Nothing,
    }
}

impl<'a> Content<'a> {
    /// The port or the signal that it is.
    pub fn signal(&self) -> Option<UnitSignal<'a>>
        ensures { option_map signals.lent result ≡ spec.signal_in (spec.lent self.now) }
    {
        match self {
            Content::Signal(signal) => Some(*signal),
            _ => None,
        }
    }
}
