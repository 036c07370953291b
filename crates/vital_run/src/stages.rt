//! The stages of a job, in their order.

ghost use Rattle.std.specs.Prelude.{◌≡◌, ◌<◌, ◌≤◌, false, length, All, Ok};
ghost use Rattle.vital_as_read.specs.Libraries.{IsFromText};
ghost use Rattle.vital_library.specs.Gathered.{gathered};
ghost use Rattle.vital_answers.specs.Loading.{OpensFiles, all_loaded};
ghost use Rattle.vital_answers.specs.Outcome.{Runs, Stage};
ghost use Rattle.vital_run.specs.Stages.{IsLibraryAnswer, IsLoadedAnswer, IsTaskAnswer};
ghost use Rattle.vital_words.specs.Given.{IsBounded, IsBoundedTask, NamesIn};

use crate::elaborating::{Aim, Asked, elaborate_top};
use crate::simulating::Simulated;
use crate::stimuli::play_text;
use std::alloc::Global;
use vital_answers::{
    NotLoaded, ReadFiles, Source, Status, Unread, check_cells, library_refusal, load_files,
    read_files, refuse_files, refuse_long,
};
use vital_base::{List, Shelf, Sink};
use vital_library::{Library, gather};
use vital_report::Printer;
use vital_sdf::SdfFile;
use vital_vhdl::{one_reading, vhdl_rules};
use vital_words::{Job, NamedFile, Sim, Task};

/// Runs a job: its files are loaded, and then come the other stages.
pub fn run_job<S: Shelf, K: Sink>(
    alloc: Global,
    job: &Job,
    shelf: &mut S,
    printer: &mut Printer<'_, K>,
) -> Status
    requires few { length job.now.files ≤ 34 }
    requires names_in { NamesIn job.now }
    requires bounded { IsBounded job.now }
    requires goes_on { printer.old.stopped ≡ false }
    ensures runs { Runs (λ files. IsLoadedAnswer job.now (all_loaded files job.now.files)) result
        (S.files shelf.old) (S.is_steady shelf.old) (S.faults shelf.old) (S.faults shelf.new) printer.old printer.new }
    ensures opens { OpensFiles job.now.files result (S.history shelf.old) (S.history shelf.new) }
{
    match load_files(alloc, job.files.as_slice(), shelf) {
        Ok(sources) => run_sources(alloc, job, &sources, printer),
        Err(NotLoaded::ReadFault) => Status::ReadFault,
        Err(NotLoaded::TooLong(file)) => refuse_long(file, printer),
        Err(NotLoaded::NoMemory) => Status::NoMemory,
    }
}

/// Runs a job whose files were loaded: they are read, and then come the other stages.
pub fn run_sources<K: Sink>(
    alloc: Global,
    job: &Job,
    sources: &List<Source>,
    printer: &mut Printer<'_, K>,
) -> Status
    requires few { length sources.now ≤ 34 }
    requires within { All (λ source. length source.text ≤ 16_777_216) sources.now }
    requires count { length sources.now ≡ length job.now.files }
    requires names_in { NamesIn job.now }
    requires bounded { IsBounded job.now }
    requires goes_on { printer.old.stopped ≡ false }
    ensures { Stage (IsLoadedAnswer job.now (Ok sources.now)) result printer.old printer.new }
{
    one_reading();
    let Ok(rules) = vhdl_rules(alloc) else {
        return Status::NoMemory;
    };
    match read_files(alloc, &rules, sources.as_slice()) {
        Ok(read) => run_read(alloc, job, sources, read, printer),
        Err(Unread::Refused(refusal)) => refuse_files(job.files.as_slice(), refusal, printer),
        Err(Unread::NoMemory) => Status::NoMemory,
    }
}

/// Runs a job whose files were read: they are joined into a library, and then comes its task.
fn run_read<K: Sink>(
    alloc: Global,
    job: &Job,
    sources: &List<Source>,
    read: ReadFiles,
    printer: &mut Printer<'_, K>,
) -> Status
    requires read { All IsFromText read.units }
    requires within { All (λ source. length source.text ≤ 16_777_216) sources.now }
    requires count { length sources.now ≡ length job.now.files }
    requires names_in { NamesIn job.now }
    requires bounded { IsBounded job.now }
    requires goes_on { printer.old.stopped ≡ false }
    ensures { Stage (IsLibraryAnswer job.now sources.now read.delays (gathered read.units)) result printer.old printer.new }
{
    let ReadFiles { units, delays } = read;
    match gather(alloc, units) {
        Ok(library) => run_task(alloc, job, sources, &delays, &library, printer),
        Err(error) => match library_refusal(error) {
            Some(refusal) => refuse_files(job.files.as_slice(), refusal, printer),
            None => Status::NoMemory,
        },
    }
}

/// Does what a job asks for with its files, the entries of its SDF files, and their library. `self` asks nothing of files.
fn run_task<K: Sink>(
    alloc: Global,
    job: &Job,
    sources: &List<Source>,
    delays: &List<SdfFile>,
    library: &Library,
    printer: &mut Printer<'_, K>,
) -> Status
    requires read { All IsFromText library.now }
    requires within { All (λ source. length source.text ≤ 16_777_216) sources.now }
    requires count { length sources.now ≡ length job.now.files }
    requires names_in { NamesIn job.now }
    requires bounded { IsBounded job.now }
    requires goes_on { printer.old.stopped ≡ false }
    ensures { Stage (IsTaskAnswer job.now.task job.now.files sources.now delays.now library.now) result printer.old printer.new }
{
    match &job.task {
        Task::Play(play) => {
            let file = &job.files.as_slice()[play.stim];
            let source = &sources.as_slice()[play.stim];
            play_text(
                alloc,
                &file.name,
                play.until,
                source.text.as_slice(),
                printer,
            )
        }
        Task::Check => check_cells(alloc, job.files.as_slice(), library, printer),
        Task::Tree(tree) => {
            let files = job.files.as_slice();
            let top = tree.top.as_slice();
            let aim = Aim::Tree;
            elaborate_top(alloc, Asked { files, top, aim }, library, printer)
        }
        Task::Sim(sim) => {
            let files = job.files.as_slice();
            run_sim(
                alloc,
                sim,
                files,
                sources.as_slice(),
                delays,
                library,
                printer,
            )
        }
        Task::SelfRun(_) => Status::Done,
    }
}

/// Simulates what is asked for in a library with these files and the entries of the SDF files among them.
fn run_sim<K: Sink>(
    alloc: Global,
    sim: &Sim,
    files: &[NamedFile],
    sources: &[Source],
    delays: &List<SdfFile>,
    library: &Library,
    printer: &mut Printer<'_, K>,
) -> Status
    requires read { All IsFromText library.now }
    requires within { All (λ source. length source.text ≤ 16_777_216) sources.now }
    requires count { length sources.now ≡ length files.now }
    requires stim { sim.now.stim < length files.now }
    requires bounded { IsBoundedTask (Task.Sim sim.now) }
    requires goes_on { printer.old.stopped ≡ false }
    ensures { Stage (IsTaskAnswer (Task.Sim sim.now) files.now sources.now delays.now library.now) result printer.old printer.new }
{
    let file = &files[sim.stim];
    let source = &sources[sim.stim];
    let top = sim.top.as_slice();
    let aim = Aim::Sim(Simulated {
        sim,
        files,
        delays,
        name: &file.name,
        text: source.text.as_slice(),
    });
    elaborate_top(alloc, Asked { files, top, aim }, library, printer)
}
