//! Reading cells.

ghost use Rattle.std.specs.Prelude.{◌≡◌, IfOk};
ghost use Rattle.vital_sdf.specs.Cells as spec;
ghost use Rattle.vital_sdf.specs.Reads.{Reads};

use crate::cell::Cell;
use crate::cursor::Cursor;
use crate::entry::Entry;
use crate::group::{Group, Instance};
use crate::read_error::ReadError;
use crate::readers::delays::{delay_section, passed};
use crate::readers::lists::{more, pushed, repeated};
use crate::readers::timing_checks::timing_check;
use std::alloc::{AllocError, Global};
use vital_base::{List, Name, Place};
use vital_sdf_lexemes::Kind;
use vital_sdf_words::parts;

const WORD: u16 = Kind::Word as u16;

const CELL_TYPE: u16 = Kind::CellType as u16;

const INSTANCE: u16 = Kind::Instance as u16;

const DELAY: u16 = Kind::Delay as u16;

const TIMING_CHECK: u16 = Kind::TimingCheck as u16;

/// What entries are for behind an INSTANCE with this word.
fn instance_of(alloc: Global, word: &[u8], divider: u8) -> Result<Instance, AllocError>
    ensures { IfOk result (λ instance. instance ≡ spec.instance_of divider word.now) }
{
    match word {
        b"*" => Ok(Instance::Each),
        _ => Ok(Instance::Path(parts(alloc, word, divider)?)),
    }
}

/// What entries are for behind an INSTANCE.
#[tactic(auto, unfolding(crate::specs::Cells::instance))]
fn instance(alloc: Global, cursor: &mut Cursor<'_>) -> Result<Instance, ReadError>
    ensures { Reads (spec.instance cursor.old) result cursor.new }
{
    if cursor.kind() != WORD {
        return Ok(Instance::Top);
    }
    let divider = cursor.divider();
    let word = cursor.spelling();
    Ok(instance_of(alloc, word, divider)?)
}

fn name_copied(alloc: Global, name: &Name) -> Result<Name, AllocError>
    ensures { IfOk result (λ copy. copy ≡ name.now) }
{
    Ok(Name::new(Vec::from_slice(alloc, name.as_slice())?))
}

fn names_copied(alloc: Global, names: &[Name]) -> Result<List<Name>, AllocError>
    ensures { IfOk result (λ copies. copies ≡ names.now) }
{
    let mut copies = Vec::new(alloc);
    for name in names {
        copies.push(name_copied(alloc, name)?)?;
    }
    Ok(List::new(copies))
}

fn type_copied(alloc: Global, cell_type: &Option<Name>) -> Result<Option<Name>, AllocError>
    ensures { IfOk result (λ copy. copy ≡ cell_type.now) }
{
    match cell_type {
        Some(name) => Ok(Some(name_copied(alloc, name)?)),
        None => Ok(None),
    }
}

fn instance_copied(alloc: Global, instance: &Instance) -> Result<Instance, AllocError>
    ensures { IfOk result (λ copy. copy ≡ instance.now) }
{
    match instance {
        Instance::Top => Ok(Instance::Top),
        Instance::Each => Ok(Instance::Each),
        Instance::Path(names) => Ok(Instance::Path(names_copied(alloc, names.as_slice())?)),
    }
}

/// The cell with a group more, of these entries.
fn with_group(alloc: Global, cell: Cell, entries: List<Entry>) -> Result<Cell, AllocError>
    ensures { IfOk result (λ made. made ≡ spec.with_group cell entries) }
{
    let Cell {
        cell_type,
        instance,
        groups,
    } = cell;
    let group = Group {
        cell_type: type_copied(alloc, &cell_type)?,
        instance: instance_copied(alloc, &instance)?,
        entries,
    };
    let groups = pushed(groups, group)?;
    Ok(Cell {
        cell_type,
        instance,
        groups,
    })
}

/// The entries of a DELAY, behind the keyword.
fn delay_entries(alloc: Global, cursor: &mut Cursor<'_>) -> Result<List<Entry>, ReadError>
    ensures { Reads (spec.delay_entries cursor.old) result cursor.new }
{
    let none = List::new(Vec::new(alloc));
    repeated(cursor, none, |cursor, found| {
        delay_section(alloc, cursor, found)
    })
}

/// The entries of a TIMINGCHECK, behind the keyword.
fn check_entries(alloc: Global, cursor: &mut Cursor<'_>) -> Result<List<Entry>, ReadError>
    ensures { Reads (spec.check_entries cursor.old) result cursor.new }
{
    let none = List::new(Vec::new(alloc));
    more(cursor, none, |cursor| timing_check(alloc, cursor))
}

/// The entry of a TIMINGENV or LABEL, whose keyword stands at the place.
fn passed_alone(
    alloc: Global,
    cursor: &mut Cursor<'_>,
    place: Place,
) -> Result<List<Entry>, ReadError>
    ensures { Reads (spec.passed_alone place cursor.old) result cursor.new }
{
    let none = List::new(Vec::new(alloc));
    Ok(pushed(none, passed(cursor, place))?)
}

/// What a part makes of the cell.
#[tactic(auto, unfolding(crate::specs::Cells::part))]
fn part(alloc: Global, cursor: &mut Cursor<'_>, mut cell: Cell) -> Result<Cell, ReadError>
    ensures { Reads (spec.part cell cursor.old) result cursor.new }
{
    let place = cursor.place();
    let entries = match cursor.take() {
        CELL_TYPE => {
            let text = cursor.quoted();
            cell.cell_type = Some(Name::new(Vec::from_slice(alloc, text)?));
            return Ok(cell);
        }
        INSTANCE => {
            cell.instance = instance(alloc, cursor)?;
            return Ok(cell);
        }
        DELAY => delay_entries(alloc, cursor)?,
        TIMING_CHECK => check_entries(alloc, cursor)?,
        _ => passed_alone(alloc, cursor, place)?,
    };
    Ok(with_group(alloc, cell, entries)?)
}

/// What the parts of a cell make of it.
fn parts_of(alloc: Global, cursor: &mut Cursor<'_>, begun: Cell) -> Result<Cell, ReadError>
    ensures { Reads (spec.parts_of begun cursor.old) result cursor.new }
{
    repeated(cursor, begun, |cursor, cell| part(alloc, cursor, cell))
}

/// The groups of a file, with those of a cell, behind the keyword.
#[tactic(auto, unfolding(crate::specs::Cells::cell))]
pub(crate) fn cell(
    alloc: Global,
    cursor: &mut Cursor<'_>,
    groups: List<Group>,
) -> Result<List<Group>, ReadError>
    ensures { Reads (spec.cell groups cursor.old) result cursor.new }
{
    let begun = Cell {
        cell_type: None,
        instance: Instance::Top,
        groups,
    };
    let read = parts_of(alloc, cursor, begun)?;
    Ok(read.groups)
}
