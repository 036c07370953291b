//! The cells of a library, and their levels.

ghost use Rattle.std.specs.Prelude.{◌≡◌, ◌<◌, [], ◌++◌, length, map, IfOk, OnOk};
ghost use Rattle.std.specs.List.{list_any, slice_get};
ghost use Rattle.std.specs.Option.{option_map_or};
ghost use Rattle.vital_library.specs.Units.{archs_of_entity, entities};
ghost use Rattle.vital_answers.specs.Cells.{AreJudged, cell_with, cells as cells', cells_of, is_below_level1 as is_below_level1', status_of as status_of'};
ghost use Rattle.vital_answers.specs.Kept.{lent};

use crate::status::Status;
use std::alloc::{AllocError, Global};
use vital_level1::{CellError, CellLevel, Packages, verdict};
use vital_library::Library;
use vital_limits::PassedLimit;
use vital_names::LibraryNames;
use vital_nodes::{Arch, Entity};

/// A cell of a library: an entity with one of its architectures, or with none.
#[derive(Clone, Copy)]
pub struct Cell<'a> {
    pub entity: &'a Entity,
    pub arch: Option<&'a Arch>,
}

/// What is found in cells, one after the other: the levels of those before the first that passes a limit, and that limit, if one does.
#[derive(Drop)]
pub struct Judged {
    pub levels: Vec<CellLevel>,
    pub limit: Option<PassedLimit>,
}

/// The cells of a library: its entities in order, and the architectures of each in order.
pub fn cells_of_library<'a>(
    alloc: Global,
    library: &'a Library,
) -> Result<Vec<Cell<'a>>, AllocError>
    ensures { IfOk result (λ found. map (lent library.now) found.items ≡ cells' library.now) }
{
    let mut found = Vec::new(alloc);
    for entity in 0..library.entity_count() {
        put_cells(&mut found, library, entity)?;
    }
    Ok(found)
}

/// Puts the cells of the entity of a number at the end.
fn put_cells<'a>(
    found: &mut Vec<Cell<'a>>,
    library: &'a Library,
    number: u32,
) -> Result<(), AllocError>
    requires there { number < length (entities library.now) }
    ensures { OnOk result (map (lent library.now) found.new.items
        ≡ map (lent library.now) found.old.items ++ option_map_or (cells_of library.now) (slice_get (entities library.now) number) []) }
{
    let entity = library.entity(number);
    if library.arch_count(number) == 0 {
        found.push(Cell { entity, arch: None })?;
        Ok(())
    } else {
        put_archs(found, library, entity, number)
    }
}

/// Puts the cells of an entity, which has this number, with each of its architectures at the end.
fn put_archs<'a>(
    found: &mut Vec<Cell<'a>>,
    library: &'a Library,
    entity: &'a Entity,
    number: u32,
) -> Result<(), AllocError>
    requires there { number < length (entities library.now) }
    ensures { OnOk result (map (lent library.now) found.new.items
        ≡ map (lent library.now) found.old.items ++ map (cell_with library.now entity.now) (archs_of_entity number library.now)) }
{
    for arch in 0..library.arch_count(number) {
        let arch = Some(library.arch(number, arch));
        found.push(Cell { entity, arch })?;
    }
    Ok(())
}

/// Judges cells of a library one after the other, up to the first that passes a limit. Names outside of the cells are found once for all.
pub fn judge(alloc: Global, library: &Library, cells: &[Cell<'_>]) -> Result<Judged, AllocError>
    ensures { IfOk result (λ judged. AreJudged (map (lent library.now) cells.now) judged.levels.items judged.limit) }
{
    let names = LibraryNames::new(alloc, library)?;
    judge_in(alloc, &names, cells)
}

/// The same with the names of the library.
fn judge_in(
    alloc: Global,
    names: &LibraryNames<'_>,
    cells: &[Cell<'_>],
) -> Result<Judged, AllocError>
    ensures { IfOk result (λ judged. AreJudged (map (lent names.now) cells.now) judged.levels.items judged.limit) }
{
    let packages = Packages::new(alloc, names)?;
    judge_by(alloc, &packages, cells)
}

/// The same with what the constants of the packages of the library break and pass.
fn judge_by(
    alloc: Global,
    packages: &Packages<'_>,
    cells: &[Cell<'_>],
) -> Result<Judged, AllocError>
    ensures { IfOk result (λ judged. AreJudged (map (lent packages.now) cells.now) judged.levels.items judged.limit) }
{
    let mut levels = Vec::new(alloc);
    for cell in cells {
        match verdict(alloc, &*packages, cell.entity, cell.arch) {
            Ok(level) => levels.push(level)?,
            Err(CellError::Limit(limit)) => {
                return Ok(Judged {
                    levels,
                    limit: Some(limit),
                });
            }
            Err(CellError::NoMemory) => return Err(AllocError),
        }
    }
    Ok(Judged {
        levels,
        limit: None,
    })
}

/// The status of a check that found this.
pub fn status_of(judged: &Judged) -> Status
    ensures { result ≡ status_of' judged.now.levels.items judged.now.limit }
{
    match judged.limit {
        Some(_) => Status::Limit,
        None if is_any_below_level1(&judged.levels) => Status::Found,
        None => Status::Done,
    }
}

fn is_any_below_level1(levels: &[CellLevel]) -> bool
    ensures { result ≡ list_any is_below_level1' levels.now }
{
    levels.iter().any(|level| is_below_level1(*level))
}

fn is_below_level1(level: CellLevel) -> bool
    ensures { result ≡ is_below_level1' level }
{
    match level {
        CellLevel::Level1 => false,
        CellLevel::Level0(_) | CellLevel::Neither(_) => true,
    }
}
