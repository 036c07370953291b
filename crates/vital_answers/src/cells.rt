//! The lines of the cells of a library.

ghost use Rattle.std.specs.Prelude.{◌≡◌, ◌≤◌, ◌++◌, false, length, map, List};
ghost use Rattle.vital_nodes.specs.declared.unit.Units.{Units};
ghost use Rattle.vital_report.specs.Lines.{said, text_of};
ghost use Rattle.vital_report.specs.Reporters.{Prints};
ghost use Rattle.vital_answers.specs.Cells.{IsCellsAnswer, level_line as level_line', level_lines, limit_line as limit_line', limit_lines, printed_limit as printed_limit'};
ghost use Rattle.vital_answers.specs.Kept.{lent};
ghost use Rattle.vital_answers.specs.Outcome.{Stage};

use crate::judging::{Cell, cells_of_library, judge, status_of};
use crate::refusal::position_of;
use crate::status::Status;
use std::alloc::Global;
use vital_base::{Sink, WriteFault};
use vital_level0::one_first_breach;
use vital_level1::CellLevel;
use vital_library::Library;
use vital_limits::{CellLimit, PassedLimit};
use vital_report::{Limit, Line, Printer};
use vital_words::NamedFile;

/// Judges the cells of a library that was read from these files, and prints a line for each of them; or, for the first that passes a
/// limit, its refusal, which ends the check.
pub fn check_cells<K: Sink>(
    alloc: Global,
    files: &[NamedFile],
    library: &Library,
    printer: &mut Printer<'_, K>,
) -> Status
    requires goes_on { printer.old.stopped ≡ false }
    ensures { Stage (IsCellsAnswer files.now library.now) result printer.old printer.new }
{
    one_first_breach();
    let Ok(cells) = cells_of_library(alloc, library) else {
        return Status::NoMemory;
    };
    let Ok(judged) = judge(alloc, library, &cells) else {
        return Status::NoMemory;
    };
    match print_cells(files, &cells, &judged.levels, judged.limit, printer) {
        Ok(()) => status_of(&judged),
        Err(WriteFault) => Status::WriteFault,
    }
}

/// Prints the lines of the first of some cells, which have these levels, and the refusal of the next, if it passes a limit.
fn print_cells<K: Sink>(
    files: &[NamedFile],
    cells: &[Cell<'_>],
    levels: &[CellLevel],
    limit: Option<PassedLimit>,
    printer: &mut Printer<'_, K>,
) -> Result<(), WriteFault>
    requires within { length levels.now ≤ length cells.now }
    requires goes_on { printer.old.stopped ≡ false }
    ensures { (library : List Units) → Prints result
        (text_of (level_lines files.now (map (lent library) cells.now) levels.now) ++ text_of (limit_lines files.now limit)) printer.old printer.new }
{
    print_levels(files, cells, levels, printer)?;
    match limit {
        Some(passed) => printer.print(&limit_line(files, passed)),
        None => Ok(()),
    }
}

/// Prints the lines of the first of some cells, which have these levels.
fn print_levels<K: Sink>(
    files: &[NamedFile],
    cells: &[Cell<'_>],
    levels: &[CellLevel],
    printer: &mut Printer<'_, K>,
) -> Result<(), WriteFault>
    requires within { length levels.now ≤ length cells.now }
    requires goes_on { printer.old.stopped ≡ false }
    ensures { (library : List Units) → Prints result (text_of (level_lines files.now (map (lent library) cells.now) levels.now)) printer.old printer.new }
{
    for number in 0..levels.len() {
        let line = level_line(files, cells[number], levels[number]);
        printer.print(&line)?;
    }
    Ok(())
}

/// The line of a cell with this level.
fn level_line<'a>(files: &'a [NamedFile], cell: Cell<'a>, level: CellLevel) -> Line<'a>
    ensures { (library : List Units) → said result ≡ level_line' files.now (lent library cell.entry) level }
{
    let entity = cell.entity.identifier.name.as_name();
    let arch = match cell.arch {
        Some(arch) => Some(arch.identifier.name.as_name()),
        None => None,
    };
    match level {
        CellLevel::Level1 => Line::CellLevel1 { entity, arch },
        CellLevel::Level0(breach) | CellLevel::Neither(breach) => Line::CellBroken {
            entity,
            arch,
            clause: breach.clause,
            at: position_of(files, breach.place),
        },
    }
}

/// The line that refuses a cell which passes this limit.
pub fn limit_line<'a>(files: &'a [NamedFile], passed: PassedLimit) -> Line<'a>
    ensures { said result ≡ limit_line' files.now passed }
{
    Line::RefusedLimit {
        limit: printed_limit(passed.limit),
        at: position_of(files, passed.place),
    }
}

/// A limit of a cell, as it is printed.
fn printed_limit(limit: CellLimit) -> Limit
    ensures { result ≡ printed_limit' limit }
{
    match limit {
        CellLimit::Ports => Limit::Ports,
        CellLimit::Rows => Limit::Rows,
        CellLimit::Columns => Limit::Columns,
        CellLimit::Paths => Limit::Paths,
        CellLimit::Delay => Limit::Delay,
    }
}
