//! The ports and signals of units.

ghost use Rattle.std.specs.Prelude.{◌≡◌, map, IfOk};
ghost use Rattle.vital_connections.specs.Objects as spec;
ghost use Rattle.vital_structure.specs.Shapes as shapes;
ghost use Rattle.vital_structure.specs.Signals.{lent};

use std::alloc::{AllocError, Global};
use vital_base::Place;
use vital_logic::Level;
use vital_nodes::Mode;
use vital_structure::{Shape, UnitSignal};

/// A port or a signal of a unit.
#[derive(Clone, Copy)]
pub struct Object<'a> {
    pub name: &'a [u8],
    /// The place of its identifier.
    pub place: Place,
    /// The mode of a port. A signal has none.
    pub mode: Option<Mode>,
    pub shape: Shape<'a>,
    /// Whether each bit is of a resolved type.
    pub is_resolved: bool,
    /// What its default gives each bit.
    pub default: Option<Level>,
}

/// A port or a signal of a netlist unit.
fn object_of_signal<'a>(signal: &UnitSignal<'a>) -> Object<'a>
    ensures { spec.lent result ≡ spec.object_of_signal (lent signal.now) }
{
    Object {
        name: signal.identifier.name.as_slice(),
        place: signal.identifier.place,
        mode: signal.mode,
        shape: signal.shape,
        is_resolved: signal.is_resolved,
        default: signal.default,
    }
}

/// The ports and signals of a netlist unit, in order.
pub fn objects_of_signals<'a>(
    alloc: Global,
    signals: &[UnitSignal<'a>],
) -> Result<Vec<Object<'a>>, AllocError>
    ensures { IfOk result (λ objects. map spec.lent objects.items ≡ map spec.object_of_signal (map lent signals.now)) }
{
    let mut objects = Vec::new(alloc);
    for signal in signals {
        objects.push(object_of_signal(signal))?;
    }
    Ok(objects)
}

/// What the port or signal of a number is. A number past them counts as one bit.
pub(crate) fn shape_at<'a>(objects: &[Object<'a>], number: usize) -> Shape<'a>
    ensures { shapes.lent result ≡ spec.shape_at (map spec.lent objects.now) number }
{
    match objects.get(number) {
        Some(object) => object.shape,
        None => Shape::Scalar,
    }
}
