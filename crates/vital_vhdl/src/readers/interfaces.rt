//! Reading subtypes and interfaces.

ghost use Rattle.std.specs.Prelude.{◌≡◌, ◌++◌, IfOk, Some, map};
ghost use Rattle.vital_shapes.specs.Declarations as spec;
ghost use Rattle.vital_shapes.specs.Reading.{after, more_lists};
ghost use Rattle.vital_vhdl.specs.Together.{earlier_iface};
ghost use Rattle.vital_vhdl.specs.Reads.{Reads, adding};

use crate::cursor::Cursor;
use crate::readers::identifiers::{identifiers, is_written};
use crate::readers::lists::{fold, items_of, pushed};
use crate::readers::operators::direction;
use crate::readers::outermost::{expression, name, optional_value};
use crate::shape_error::ShapeError;
use sqlite_items::Items;
use std::alloc::{AllocError, Global};
use vital_base::List;
use vital_nodes::{Identifier, Iface, IfaceClass, IfaceParts, Mode, Range, Shared, Subtype};

#[tactic(auto, unfolding(vital_shapes::specs::Declarations::bounds))]
fn bounds(alloc: Global, cursor: &mut Cursor<'_>) -> Result<Option<Range>, ShapeError>
    ensures { Reads (spec.bounds cursor.old) result cursor.new }
{
    if cursor.choice() == 0 {
        return Ok(None);
    }
    cursor.skip();
    let left = expression(alloc, cursor)?;
    let direction = direction(cursor);
    let right = expression(alloc, cursor)?;
    Ok(Some(Range {
        left,
        direction,
        right,
    }))
}

#[tactic(auto, unfolding(vital_shapes::specs::Declarations::sub))]
pub(crate) fn sub(alloc: Global, cursor: &mut Cursor<'_>) -> Result<Subtype, ShapeError>
    ensures { Reads (spec.sub cursor.old) result cursor.new }
{
    cursor.choice();
    let name = name(alloc, cursor)?;
    let range = bounds(alloc, cursor)?;
    Ok(Subtype { name, range })
}

#[tactic(auto, unfolding(vital_shapes::specs::Declarations::iface_class_of))]
fn iface_class_of(alternative: u16) -> IfaceClass
    ensures { result ≡ spec.iface_class_of alternative }
{
    match alternative {
        1 => IfaceClass::Constant,
        _ => IfaceClass::Signal,
    }
}

#[tactic(auto, unfolding(vital_shapes::specs::Declarations::iface_class))]
fn iface_class(cursor: &mut Cursor<'_>) -> Option<IfaceClass>
    ensures { spec.iface_class cursor.old ≡ Some (result, cursor.new) }
{
    let alternative = cursor.choice();
    if alternative == 0 {
        return None;
    }
    cursor.skip();
    Some(iface_class_of(alternative))
}

#[tactic(auto, unfolding(vital_shapes::specs::Declarations::mode_of))]
fn mode_of(alternative: u16) -> Mode
    ensures { result ≡ spec.mode_of alternative }
{
    match alternative {
        1 => Mode::In,
        2 => Mode::Out,
        3 => Mode::Inout,
        4 => Mode::Buffer,
        _ => Mode::Linkage,
    }
}

#[tactic(auto, unfolding(vital_shapes::specs::Declarations::mode))]
fn mode(cursor: &mut Cursor<'_>) -> Mode
    ensures { spec.mode cursor.old ≡ Some (result, cursor.new) }
{
    let alternative = cursor.choice();
    if alternative == 0 {
        return Mode::In;
    }
    cursor.skip();
    mode_of(alternative)
}

/// Adds an interface for each of the identifiers before the last one.
fn earlier_ifaces(
    mut found: List<Iface>,
    identifiers: Vec<Identifier>,
    parts: &Shared<IfaceParts>,
) -> Result<List<Iface>, AllocError>
    ensures { IfOk result (λ all. all ≡ found ++ map (earlier_iface parts.now) identifiers.items) }
{
    for identifier in identifiers {
        let parts = parts.share()?;
        let iface = Iface {
            identifier,
            parts,
            is_last: false,
        };
        found = pushed(found, iface)?;
    }
    Ok(found)
}

/// Adds an interface for each identifier.
fn each_iface(
    found: List<Iface>,
    identifiers: List<Identifier>,
    parts: Shared<IfaceParts>,
) -> Result<List<Iface>, AllocError>
    ensures { IfOk result (λ all. all ≡ found ++ spec.each_iface identifiers parts) }
{
    let mut identifiers = identifiers.into_vec();
    let Some(identifier) = identifiers.pop() else {
        return Ok(found);
    };
    let earlier = earlier_ifaces(found, identifiers, &parts)?;
    let last = Iface {
        identifier,
        parts,
        is_last: true,
    };
    pushed(earlier, last)
}

#[tactic(auto, unfolding(vital_shapes::specs::Declarations::iface_parts))]
fn iface_parts(
    alloc: Global,
    cursor: &mut Cursor<'_>,
    class: Option<IfaceClass>,
) -> Result<IfaceParts, ShapeError>
    ensures { Reads (spec.iface_parts class cursor.old) result cursor.new }
{
    let mode = mode(cursor);
    let subtype = sub(alloc, cursor)?;
    let bus = is_written(cursor);
    let default = optional_value(alloc, cursor)?;
    Ok(IfaceParts {
        class,
        mode,
        subtype,
        bus,
        default,
    })
}

/// Adds the interfaces that are declared together.
#[tactic(auto, unfolding(vital_shapes::specs::Declarations::iface))]
fn iface(
    alloc: Global,
    cursor: &mut Cursor<'_>,
    found: List<Iface>,
) -> Result<List<Iface>, ShapeError>
    ensures { Reads (adding found (spec.iface cursor.old)) result cursor.new }
{
    cursor.choice();
    let class = iface_class(cursor);
    let identifiers = identifiers(alloc, cursor)?;
    cursor.skip();
    let parts = Shared::new(alloc, iface_parts(alloc, cursor, class)?)?;
    Ok(each_iface(found, identifiers, parts)?)
}

/// Those that were found, and those that are declared behind each further semicolon.
fn more_ifaces(
    alloc: Global,
    cursor: &mut Cursor<'_>,
    found: List<Iface>,
) -> Result<List<Iface>, ShapeError>
    ensures { Reads (more_lists (λ _. after spec.iface) found cursor.old) result cursor.new }
{
    fold(cursor, found, |cursor, found, _| {
        cursor.skip();
        iface(alloc, cursor, found)
    })
}

/// The generics or the ports behind their word, if they are written.
#[tactic(auto, unfolding(vital_shapes::specs::Declarations::interfaces))]
pub(crate) fn interfaces(alloc: Global, cursor: &mut Cursor<'_>) -> Result<Items<Iface>, ShapeError>
    ensures { Reads (spec.interfaces cursor.old) result cursor.new }
{
    if cursor.choice() == 0 {
        return Ok(Items::new(alloc));
    }
    cursor.skip();
    cursor.skip();
    let first = iface(alloc, cursor, List::new(Vec::new(alloc)))?;
    let found = more_ifaces(alloc, cursor, first)?;
    cursor.skip();
    cursor.skip();
    Ok(items_of(found))
}
