//! Reading the units of a file.

ghost use Rattle.std.specs.Prelude.{◌≡◌, ◌++◌, [], Some};
ghost use Rattle.vital_shapes.specs.Shapes as spec;
ghost use Rattle.vital_vhdl.specs.Reads.{Reads, adding};

use crate::cursor::Cursor;
use crate::readers::concurrent::concs;
use crate::readers::declarations::declarations;
use crate::readers::identifiers::{closing, identifiers, is_written};
use crate::readers::interfaces::interfaces;
use crate::readers::lists::{fold, pushed};
use crate::readers::outermost::names;
use crate::shape_error::ShapeError;
use sqlite_items::Items;
use std::alloc::Global;
use vital_base::List;
use vital_nodes::{Arch, Conc, Config, Entity, Pack, Unit};

/// The statements after `begin`, if it is written.
#[tactic(auto, unfolding(vital_shapes::specs::Shapes::entity_statements))]
fn entity_statements(alloc: Global, cursor: &mut Cursor<'_>) -> Result<Items<Conc>, ShapeError>
    ensures { Reads (spec.entity_statements cursor.old) result cursor.new }
{
    if cursor.choice() == 0 {
        return Ok(Items::new(alloc));
    }
    cursor.skip();
    concs(alloc, cursor)
}

/// Passes over the end of a unit.
#[tactic(auto, unfolding(vital_shapes::specs::Shapes::ending))]
fn ending(cursor: &mut Cursor<'_>)
    ensures { spec.ending cursor.old ≡ Some (tt, cursor.new) }
{
    cursor.skip();
    is_written(cursor);
    closing(cursor);
    cursor.skip();
}

#[tactic(auto, unfolding(vital_shapes::specs::Shapes::entity))]
fn entity(alloc: Global, cursor: &mut Cursor<'_>) -> Result<Unit, ShapeError>
    ensures { Reads (spec.entity cursor.old) result cursor.new }
{
    cursor.choice();
    let place = cursor.place();
    cursor.skip();
    let identifier = cursor.identifier(alloc)?;
    cursor.skip();
    let generics = interfaces(alloc, cursor)?;
    let ports = interfaces(alloc, cursor)?;
    let declarations = declarations(alloc, cursor)?;
    let statements = entity_statements(alloc, cursor)?;
    ending(cursor);
    Ok(Unit::Entity(Entity {
        place,
        identifier,
        generics,
        ports,
        declarations,
        statements,
    }))
}

#[tactic(auto, unfolding(vital_shapes::specs::Shapes::arch))]
fn arch(alloc: Global, cursor: &mut Cursor<'_>) -> Result<Unit, ShapeError>
    ensures { Reads (spec.arch cursor.old) result cursor.new }
{
    cursor.choice();
    let place = cursor.place();
    cursor.skip();
    let identifier = cursor.identifier(alloc)?;
    cursor.skip();
    let entity = cursor.identifier(alloc)?;
    cursor.skip();
    let declarations = declarations(alloc, cursor)?;
    cursor.skip();
    let statements = concs(alloc, cursor)?;
    ending(cursor);
    Ok(Unit::Arch(Arch {
        place,
        identifier,
        entity,
        declarations,
        statements,
    }))
}

#[tactic(auto, unfolding(vital_shapes::specs::Shapes::pack))]
fn pack(alloc: Global, cursor: &mut Cursor<'_>) -> Result<Unit, ShapeError>
    ensures { Reads (spec.pack cursor.old) result cursor.new }
{
    cursor.choice();
    let place = cursor.place();
    cursor.skip();
    let identifier = cursor.identifier(alloc)?;
    cursor.skip();
    let declarations = declarations(alloc, cursor)?;
    ending(cursor);
    Ok(Unit::Pack(Pack {
        place,
        identifier,
        declarations,
    }))
}

#[tactic(auto, unfolding(vital_shapes::specs::Shapes::config))]
fn config(alloc: Global, cursor: &mut Cursor<'_>) -> Result<Unit, ShapeError>
    ensures { Reads (spec.config cursor.old) result cursor.new }
{
    cursor.choice();
    let place = cursor.place();
    cursor.skip();
    let identifier = cursor.identifier(alloc)?;
    cursor.skip();
    let entity = cursor.identifier(alloc)?;
    cursor.skip();
    cursor.skip();
    let arch = cursor.identifier(alloc)?;
    cursor.skip();
    cursor.skip();
    cursor.skip();
    ending(cursor);
    Ok(Unit::Config(Config {
        place,
        identifier,
        entity,
        arch,
    }))
}

/// Passes over a library clause, which gives no unit.
#[tactic(auto, unfolding(vital_shapes::specs::Shapes::library_clause))]
fn library_clause(
    alloc: Global,
    cursor: &mut Cursor<'_>,
    found: List<Unit>,
) -> Result<List<Unit>, ShapeError>
    ensures { Reads (adding found (spec.library_clause cursor.old)) result cursor.new }
{
    cursor.skip();
    identifiers(alloc, cursor)?;
    cursor.skip();
    Ok(found)
}

/// Passes over a use clause, which gives no unit.
#[tactic(auto, unfolding(vital_shapes::specs::Shapes::use_clause))]
fn use_clause(
    alloc: Global,
    cursor: &mut Cursor<'_>,
    found: List<Unit>,
) -> Result<List<Unit>, ShapeError>
    ensures { Reads (adding found (spec.use_clause cursor.old)) result cursor.new }
{
    cursor.skip();
    names(alloc, cursor)?;
    cursor.skip();
    Ok(found)
}

#[tactic(auto, unfolding(vital_shapes::specs::Shapes::unit))]
fn unit(alloc: Global, cursor: &mut Cursor<'_>, alternative: u16) -> Result<Unit, ShapeError>
    ensures { Reads (spec.unit alternative cursor.old) result cursor.new }
{
    match alternative {
        3 => entity(alloc, cursor),
        4 => arch(alloc, cursor),
        5 => pack(alloc, cursor),
        _ => config(alloc, cursor),
    }
}

/// Adds the unit that stands here, and passes over a clause.
#[tactic(auto, unfolding(vital_shapes::specs::Shapes::file_part))]
fn file_part(
    alloc: Global,
    cursor: &mut Cursor<'_>,
    found: List<Unit>,
    alternative: u16,
) -> Result<List<Unit>, ShapeError>
    ensures { Reads (adding found (spec.file_part alternative cursor.old)) result cursor.new }
{
    match alternative {
        1 => library_clause(alloc, cursor, found),
        2 => use_clause(alloc, cursor, found),
        _ => {
            let unit = unit(alloc, cursor, alternative)?;
            Ok(pushed(found, unit)?)
        }
    }
}

/// The units of a file, from its derivation and its tokens.
pub(crate) fn file_units(alloc: Global, cursor: &mut Cursor<'_>) -> Result<List<Unit>, ShapeError>
    ensures { Reads (spec.file_units cursor.old) result cursor.new }
{
    fold(
        cursor,
        List::new(Vec::new(alloc)),
        |cursor, found, alternative| file_part(alloc, cursor, found, alternative),
    )
}
