//! Why a library has no instances under a top.

ghost use Rattle.std.specs.Prelude.{◌≡◌};
ghost use Rattle.vital_instances.specs.declared.fault.InstancesError.TheVariants.{NoMemory};

use crate::cell_fault::CellFault;
use std::alloc::{AllocError, AllocFailed};
use vital_associations::AssociationFault;
use vital_base::Place;
use vital_nodes::Identifier;
use vital_structure::UnitFault;

/// The first fault of a library under a top. Those that hold an identifier stand at it.
#[derive(Clone, Copy)]
pub enum Fault<'a> {
    /// No entity has the name of the top.
    NoTop,
    /// The unit of an instance is no entity, or the entity has no architecture.
    UnknownUnit(&'a Identifier),
    /// The unit of an instance stands on its path.
    Loop(&'a Identifier),
    /// More than 32 labels are on the path of an instance.
    TooDeep(&'a Identifier),
    /// There are more than 16,384 instances, the top among them.
    TooManyInstances(&'a Identifier),
    /// An instance has a generic map.
    GenericMap(&'a Identifier),
    /// A port or a declaration of a netlist unit is a fault.
    Declaration(UnitFault<'a>),
    /// A statement of a netlist unit is no instance.
    NotStructural(Place),
    /// An association of an instance is a fault.
    Association(AssociationFault<'a>),
    /// A cell may not stand in a design.
    Cell(CellFault),
}

/// Why there are no instances.
#[derive(Clone, Copy)]
pub enum InstancesError<'a> {
    Fault(Fault<'a>),
    NoMemory,
}

impl<'a> From<AllocError> for InstancesError<'a> {
    ghost from_gives = { λ _ e. e ≡ NoMemory };

    fn from(_error: AllocError) -> InstancesError<'a> {
        InstancesError::NoMemory
    }
}

impl<'a, T: Drop> From<AllocFailed<T>> for InstancesError<'a> {
    ghost from_gives = { λ _ e. e ≡ NoMemory };

    fn from(_error: AllocFailed<T>) -> InstancesError<'a> {
        InstancesError::NoMemory
    }
}
