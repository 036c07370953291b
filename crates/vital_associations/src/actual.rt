//! What is associated with ports.

ghost use Rattle.std.specs.Prelude.{◌≡◌};
ghost use Rattle.std.specs.Option.{option_map};
ghost use Rattle.vital_associations.specs.Actuals as spec;
ghost use Rattle.vital_structure.specs.Shapes as shapes;
ghost use Rattle.vital_structure.specs.Structures.{signals_of};

use crate::formals::part_in;
use crate::given::is_open;
use vital_logic::Level;
use vital_nodes::{Expr, Item, Mode, Reference, actual};
use vital_structure::{Part, Shape, Structure, level_literal};

/// What a port or a part of it is associated with.
#[derive(Clone, Copy)]
pub enum Actual<'a> {
    Open,
    /// A level that a character literal writes.
    Literal(Level),
    /// The port or signal of a number of the unit of the instance, or a part of it.
    Signal(usize, Part<'a>),
}

/// What a port or a signal of a unit is. A number past them counts as one bit.
pub fn signal_shape<'a>(structure: &Structure<'a>, number: usize) -> Shape<'a>
    ensures { shapes.lent result ≡ spec.shape_at (signals_of structure.now) number }
{
    match structure.signals().get(number) {
        Some(signal) => signal.shape,
        None => Shape::Scalar,
    }
}

/// The mode of a port of a unit. A declared signal has none.
fn signal_mode(structure: &Structure<'_>, number: usize) -> Option<Mode>
    ensures { result ≡ spec.mode_at (signals_of structure.now) number }
{
    match structure.signals().get(number) {
        Some(signal) => signal.mode,
        None => None,
    }
}

/// The port or signal that a name names, alone or with one index or one slice in its range.
fn signal_named<'a>(structure: &Structure<'_>, name: &'a Reference) -> Option<Actual<'a>>
    ensures { option_map spec.lent result ≡ spec.signal_named (signals_of structure.now) name.now }
{
    let number = structure.number(name.identifier.name.as_slice())?;
    let part = part_in(signal_shape(structure, number), name.suffixes.as_slice())?;
    Some(Actual::Signal(number, part))
}

/// What an expression gives, if it may be associated.
fn given_by<'a>(structure: &Structure<'_>, value: &'a Expr) -> Option<Actual<'a>>
    ensures { option_map spec.lent result ≡ spec.given_by (signals_of structure.now) value.now }
{
    match value {
        Expr::Reference(name) => signal_named(structure, name),
        _ => match level_literal(value) {
            Some(level) => Some(Actual::Literal(level)),
            None => None,
        },
    }
}

/// What an item gives, if it may be associated.
pub fn given<'a>(structure: &Structure<'_>, item: &'a Item) -> Option<Actual<'a>>
    ensures { option_map spec.lent result ≡ spec.given (signals_of structure.now) item.now }
{
    if is_open(item) {
        return Some(Actual::Open);
    }
    given_by(structure, actual(item)?)
}

/// What an actual is; `open` is nothing.
pub fn shape_of<'a>(structure: &Structure<'a>, actual: Actual<'a>) -> Option<Shape<'a>>
    ensures { option_map shapes.lent result ≡ spec.shape_of (signals_of structure.now) (spec.lent actual.entry) }
{
    match actual {
        Actual::Open => None,
        Actual::Literal(_) => Some(Shape::Scalar),
        Actual::Signal(number, part) => Some(signal_shape(structure, number).part(part)),
    }
}

/// Whether an actual may only be read: a literal, or an in port of the unit.
pub fn is_read_only(structure: &Structure<'_>, actual: Actual<'_>) -> bool
    ensures { result ≡ spec.is_read_only (signals_of structure.now) (spec.lent actual.entry) }
{
    match actual {
        Actual::Open => false,
        Actual::Literal(_) => true,
        Actual::Signal(number, _) => signal_mode(structure, number) == Some(Mode::In),
    }
}
