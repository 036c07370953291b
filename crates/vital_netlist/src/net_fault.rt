//! Why there is no design, as it is refused.

ghost use Rattle.std.specs.Prelude.{◌≡◌};
ghost use Rattle.vital_netlist.specs.declared.net_fault.ElabError.TheVariants.{NoMemory};

use crate::signals::SignalsError;
use std::alloc::AllocError;
use vital_base::{Breach, Place};
use vital_limits::PassedLimit;

/// A place, and the name of the identifier that stands there, if one does.
#[derive(Clone, Copy)]
pub struct Mark<'a> {
    pub place: Place,
    pub name: Option<&'a [u8]>,
}

/// What is wrong in netlists: why a library has no design under a top.
#[derive(Clone, Copy)]
pub enum NetFault<'a> {
    /// No entity has the name of the top.
    NoTop,
    /// The unit of an instance is no entity or has no architecture: at the last identifier of its name.
    UnknownUnit(Mark<'a>),
    /// The unit of an instance stands on its path: at the last identifier of its name.
    Loop(Mark<'a>),
    /// A formal is no port, alone or with one index or one slice in its range: at its identifier.
    UnknownPort(Mark<'a>),
    /// An actual is neither `open` nor a level, port or signal, alone or with one index or one slice in its range: at it.
    UnknownSignal(Mark<'a>),
    /// A formal and an actual differ in length: at the actual.
    WidthDiffers(Mark<'a>),
    /// One of a formal and an actual is one bit, and the other a vector: at the actual. Or a port or signal has a type or a default that it
    /// may not have: at its identifier.
    TypeDiffers(Mark<'a>),
    /// A bit of a formal was associated before: at the identifier of the formal.
    TwiceAssociated(Mark<'a>),
    /// A port or a signal has the name of an earlier one: at its identifier.
    TwiceDeclared(Mark<'a>),
    /// A declaration or a statement is none of a netlist: at its place. No name is told.
    NotStructural(Mark<'a>),
    /// A port that drives is associated with an in port or a level: at that.
    OutputToInputPort(Mark<'a>),
    /// A signal of an unresolved type has two drivers, where an inout port of the top counts as one: at the identifier of its port or
    /// declaration.
    TwoDrivers(Mark<'a>),
    /// An instance has a generic map: at the last identifier of the name of its unit.
    GenericMap(Mark<'a>),
    /// A cell breaks a clause of VITAL, first there.
    NotLevel1(Breach),
}

/// Which limit a library passes under a top.
#[derive(Clone, Copy, PartialEq, Eq)]
pub enum NetLimit {
    /// At most 16,384 instances, the top among them. The place is that of the last identifier of the unit of the first one too many.
    Instances(Place),
    /// At most 65,536 signals. The place is that of the port or signal that has the first one too many.
    Nets(Place),
    /// At most 32 labels on the path of an instance. The place is that of the last identifier of its unit.
    Depth(Place),
    /// A limit of a cell.
    Cell(PassedLimit),
}

/// Why a library has no design under a top.
#[derive(Clone, Copy)]
pub enum ElabError<'a> {
    Net(NetFault<'a>),
    Limit(NetLimit),
    NoMemory,
}

impl<'a> From<AllocError> for ElabError<'a> {
    ghost from_gives = { λ _ e. e ≡ NoMemory };

    fn from(_error: AllocError) -> ElabError<'a> {
        ElabError::NoMemory
    }
}

impl<'a> From<SignalsError> for ElabError<'a> {
    ghost use Rattle.vital_netlist.specs.Refusals.{refusal_of_signals, lent_error};

    ghost from_gives = { λ s e. refusal_of_signals s ≡ lent_error e };

    fn from(error: SignalsError) -> ElabError<'a> {
        match error {
            SignalsError::TooMany(place) => ElabError::Limit(NetLimit::Nets(place)),
            SignalsError::NoMemory => ElabError::NoMemory,
        }
    }
}
