//! Elaborating a library under a top, step by step: each step borrows what the ones before it made. The last one does with the design what
//! is asked.

ghost use Rattle.std.specs.Prelude.{◌≡◌, false, All};
ghost use Rattle.vital_as_read.specs.Libraries.{IsFromText};
ghost use Rattle.vital_netlist.specs.Elaboration.{designed};
ghost use Rattle.vital_instances.specs.Designs.{AreEntered};
ghost use Rattle.vital_answers.specs.Outcome.{Stage};
ghost use Rattle.vital_answers.specs.Designs.{IsElaboratedAnswer, IsUnderAnswer};
ghost use Rattle.vital_run.specs.Aims.{CanAnswer, IsAimAnswer};
ghost use Rattle.vital_answers.specs.Trees.{IsTreeAnswer};

use crate::simulating::{Simulated, simulate};
use std::alloc::Global;
use vital_answers::{Status, print_design, refuse_design};
use vital_base::Sink;
use vital_instances::{Instance, InstancesError, NetUnits, instances, one_judge};
use vital_level1::Packages;
use vital_library::Library;
use vital_names::LibraryNames;
use vital_netlist::{Cells, Design, DesignParts, ElabError, elaborate, refusal_of};
use vital_report::{PrintError, Printer};
use vital_typed_cells::TypedPackages;
use vital_words::NamedFile;

/// What is asked for: the design under a top, an entity of a library that was read from these files, and what is done with it.
#[derive(Clone, Copy)]
pub struct Asked<'a> {
    pub files: &'a [NamedFile],
    pub top: &'a [u8],
    pub aim: Aim<'a>,
}

/// What is done with a design.
#[derive(Clone, Copy)]
pub enum Aim<'a> {
    /// It is printed.
    Tree,
    /// It is simulated.
    Sim(Simulated<'a>),
}

/// A library with what is made of it before its instances are: its names, what the constants of its packages break and pass, and what its
/// netlist units hold.
#[derive(Clone, Copy)]
struct Prepared<'a> {
    library: &'a Library,
    names: &'a LibraryNames<'a>,
    packages: &'a Packages<'a>,
    net_units: &'a NetUnits<'a>,
}

/// Elaborates a library under a top, and does with the design what is asked; or refuses it.
pub fn elaborate_top<K: Sink>(
    alloc: Global,
    asked: Asked<'_>,
    library: &Library,
    printer: &mut Printer<'_, K>,
) -> Status
    requires read { All IsFromText library.now }
    requires aim { CanAnswer asked.aim }
    requires goes_on { printer.old.stopped ≡ false }
    ensures { Stage (IsUnderAnswer (IsAimAnswer asked.entry.aim) asked.entry.files.now library.now asked.entry.top.now) result printer.old printer.new }
{
    let Ok(names) = LibraryNames::new(alloc, library) else {
        return Status::NoMemory;
    };
    answer_named(alloc, asked, library, &names, printer)
}

/// The same with the names of the library.
fn answer_named<'a, K: Sink>(
    alloc: Global,
    asked: Asked<'_>,
    library: &'a Library,
    names: &'a LibraryNames<'a>,
    printer: &mut Printer<'_, K>,
) -> Status
    requires read { All IsFromText library.now }
    requires names { names.now ≡ library.now }
    requires aim { CanAnswer asked.aim }
    requires goes_on { printer.old.stopped ≡ false }
    ensures { Stage (IsUnderAnswer (IsAimAnswer asked.entry.aim) asked.entry.files.now library.now asked.entry.top.now) result printer.old printer.new }
{
    let Ok(packages) = Packages::new(alloc, names) else {
        return Status::NoMemory;
    };
    answer_judged(alloc, asked, library, names, &packages, printer)
}

/// The same with what the constants of its packages break and pass.
fn answer_judged<'a, K: Sink>(
    alloc: Global,
    asked: Asked<'_>,
    library: &'a Library,
    names: &'a LibraryNames<'a>,
    packages: &'a Packages<'a>,
    printer: &mut Printer<'_, K>,
) -> Status
    requires read { All IsFromText library.now }
    requires packages { packages.now ≡ library.now }
    requires aim { CanAnswer asked.aim }
    requires goes_on { printer.old.stopped ≡ false }
    ensures { Stage (IsUnderAnswer (IsAimAnswer asked.entry.aim) asked.entry.files.now library.now asked.entry.top.now) result printer.old printer.new }
{
    let Ok(net_units) = NetUnits::new(alloc, library, names) else {
        return Status::NoMemory;
    };
    let of = Prepared {
        library,
        names,
        packages,
        net_units: &net_units,
    };
    answer_under(alloc, asked, &of, printer)
}

/// The same with all that is made of the library before.
fn answer_under<K: Sink>(
    alloc: Global,
    asked: Asked<'_>,
    of: &Prepared<'_>,
    printer: &mut Printer<'_, K>,
) -> Status
    requires read { All IsFromText of.now.library.now }
    requires packages { of.now.packages.now ≡ of.now.library.now }
    requires net_units { of.now.net_units.now ≡ of.now.library.now }
    requires aim { CanAnswer asked.aim }
    requires goes_on { printer.old.stopped ≡ false }
    ensures { Stage (IsUnderAnswer (IsAimAnswer asked.entry.aim) asked.entry.files.now of.now.library.now asked.entry.top.now) result printer.old printer.new }
{
    one_judge();
    match instances(alloc, of.library, of.packages, of.net_units, asked.top) {
        Ok(found) => {
            let entered = found.as_slice();
            answer_entered(alloc, asked, of, entered, printer)
        }
        Err(InstancesError::Fault(fault)) => {
            refuse_design(asked.files, asked.top, refusal_of(fault), printer)
        }
        Err(InstancesError::NoMemory) => Status::NoMemory,
    }
}

/// The same with the instances under the top.
fn answer_entered<K: Sink>(
    alloc: Global,
    asked: Asked<'_>,
    of: &Prepared<'_>,
    entered: &[Instance],
    printer: &mut Printer<'_, K>,
) -> Status
    requires read { All IsFromText of.now.library.now }
    requires packages { of.now.packages.now ≡ of.now.library.now }
    requires net_units { of.now.net_units.now ≡ of.now.library.now }
    requires entered { AreEntered of.now.library.now entered.now }
    requires aim { CanAnswer asked.aim }
    requires goes_on { printer.old.stopped ≡ false }
    ensures { Stage (IsElaboratedAnswer (IsAimAnswer asked.entry.aim) asked.entry.files.now asked.entry.top.now (designed of.now.library.now entered.now)) result printer.old printer.new }
{
    let Ok(typed) = TypedPackages::new(alloc, of.packages) else {
        return Status::NoMemory;
    };
    let Ok(cells) = Cells::new(alloc, of.library, &typed, entered) else {
        return Status::NoMemory;
    };
    let parts = DesignParts {
        library: of.library,
        names: of.names,
        net_units: of.net_units,
        instances: entered,
        cells: &cells,
    };
    answer_parts(alloc, asked, &parts, printer)
}

/// The same with all that the design is made of.
fn answer_parts<K: Sink>(
    alloc: Global,
    asked: Asked<'_>,
    parts: &DesignParts<'_>,
    printer: &mut Printer<'_, K>,
) -> Status
    requires read { All IsFromText parts.now.library.now }
    requires net_units { parts.now.net_units.now ≡ parts.now.library.now }
    requires cells { parts.now.cells.now ≡ record { files = parts.now.library.now; instances = parts.now.instances.now } }
    requires entered { AreEntered parts.now.library.now parts.now.instances.now }
    requires aim { CanAnswer asked.aim }
    requires goes_on { printer.old.stopped ≡ false }
    ensures { Stage (IsElaboratedAnswer (IsAimAnswer asked.entry.aim) asked.entry.files.now asked.entry.top.now (designed parts.now.library.now parts.now.instances.now)) result printer.old printer.new }
{
    match elaborate(alloc, parts) {
        Ok(design) => answer_found(alloc, asked.aim, &design, printer),
        Err(error) => refuse_design(asked.files, asked.top, error, printer),
    }
}

/// Does with a design what is asked, and ends with the status of that.
fn answer_found<K: Sink>(
    alloc: Global,
    aim: Aim<'_>,
    design: &Design<'_>,
    printer: &mut Printer<'_, K>,
) -> Status
    requires aim { CanAnswer aim }
    requires goes_on { printer.old.stopped ≡ false }
    ensures { Stage (IsAimAnswer aim.entry design.now) result printer.old printer.new }
{
    match aim {
        Aim::Tree => answer_tree(alloc, design, printer),
        Aim::Sim(simulated) => simulate(alloc, simulated, design, printer),
    }
}

/// Prints a design, and ends with the status of that.
fn answer_tree<K: Sink>(alloc: Global, design: &Design<'_>, printer: &mut Printer<'_, K>) -> Status
    requires goes_on { printer.old.stopped ≡ false }
    ensures { Stage (IsTreeAnswer design.now) result printer.old printer.new }
{
    match print_design(alloc, design, printer) {
        Ok(()) => Status::Done,
        Err(PrintError::WriteFault) => Status::WriteFault,
        Err(PrintError::NoMemory) => Status::NoMemory,
    }
}
