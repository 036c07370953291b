//! Running a design with the delays of SDF files and with stimuli.

ghost use Rattle.std.specs.List.{AllZip};
ghost use Rattle.std.specs.List.Sorted.{IsNonDecreasing};
ghost use Rattle.std.specs.Prelude.{◌≡◌, ◌^◌, ◌≤◌, All, IfOk, false, length, map};
ghost use Rattle.vital_annotate.specs.Instances.{cell_instances};
ghost use Rattle.vital_report.specs.Lines.{text_of};
ghost use Rattle.vital_report.specs.Reporters.{Prints};
ghost use Rattle.vital_answers.specs.Outcome.{Stage};
ghost use Rattle.vital_run.specs.Runs.{IsRunAnswer};
ghost use Rattle.vital_run.specs.Simulations.{IsAnnotatedAnswer, IsSimAnswer, IsTimedAnswer, note_line, printed_note, simulated};
ghost use Rattle.vital_stim.specs.Stimuli.{Fits};
ghost use Rattle.vital_typed_cells.specs.Fits.{FitsCell};

use crate::network_run::run_network;
use crate::stimuli::refuse_stimuli;
use std::alloc::{AllocError, Global};
use vital_annotate::{AnnotateError, Annotated, Note, NoteWhy, annotate};
use vital_answers::{Refusal, Status, position_of, refuse_files};
use vital_base::{List, Name, Sink, WriteFault};
use vital_kernel::Network;
use vital_netlist::Design;
use vital_report::{Limit, Line, NoteWhy as PrintedWhy, Printer};
use vital_sdf::SdfFile;
use vital_stim::{StimError, Stimuli, read_stim};
use vital_typed_cells::Values;
use vital_words::{NamedFile, Sim};

/// What `sim` is asked for: its job, its files with the entries of the SDF files among them, and the name and the text of the stimulus
/// file.
#[derive(Clone, Copy)]
pub struct Simulated<'a> {
    pub sim: &'a Sim,
    pub files: &'a [NamedFile],
    pub delays: &'a List<SdfFile>,
    pub name: &'a Name,
    pub text: &'a [u8],
}

/// Runs a design with the delays of SDF files and the stimuli of a text.
pub fn simulate<K: Sink>(
    alloc: Global,
    asked: Simulated<'_>,
    design: &Design<'_>,
    printer: &mut Printer<'_, K>,
) -> Status
    requires short { length asked.text.now ≤ 16_777_216 }
    requires until { asked.sim.now.until ≤ 2 ^ 60 }
    requires limit { 1 ≤ asked.sim.now.limit }
    requires goes_on { printer.old.stopped ≡ false }
    ensures { Stage (IsSimAnswer asked.entry.sim.now asked.entry.files.now asked.entry.delays.now asked.entry.name.now asked.entry.text.now design.now) result printer.old printer.new }
{
    match annotate(alloc, design, asked.delays, asked.sim.corner) {
        Ok(annotated) => simulate_annotated(alloc, asked, design, &annotated, printer),
        Err(AnnotateError::Limit { place }) => {
            let limit = Limit::Delay;
            refuse_files(asked.files, Refusal::Limit { limit, place }, printer)
        }
        Err(AnnotateError::NoMemory) => Status::NoMemory,
    }
}

/// Prints the notes, and runs a design with the delays.
fn simulate_annotated<K: Sink>(
    alloc: Global,
    asked: Simulated<'_>,
    design: &Design<'_>,
    annotated: &Annotated,
    printer: &mut Printer<'_, K>,
) -> Status
    requires fit { AllZip (λ i delays. FitsCell i.cell delays) (cell_instances design.now) annotated.now.values }
    requires short { length asked.text.now ≤ 16_777_216 }
    requires until { asked.sim.now.until ≤ 2 ^ 60 }
    requires limit { 1 ≤ asked.sim.now.limit }
    requires goes_on { printer.old.stopped ≡ false }
    ensures { Stage (IsAnnotatedAnswer asked.entry.sim.now asked.entry.files.now asked.entry.name.now asked.entry.text.now design.now
        (Ok (record { values = annotated.now.values; notes = annotated.now.notes }))) result printer.old printer.new }
{
    match print_notes(asked.files, annotated.notes.as_slice(), printer) {
        Ok(()) => simulate_timed(alloc, asked, design, annotated.values.as_slice(), printer),
        Err(WriteFault) => Status::WriteFault,
    }
}

/// Prints the lines of notes.
fn print_notes<K: Sink>(
    files: &[NamedFile],
    notes: &[Note],
    printer: &mut Printer<'_, K>,
) -> Result<(), WriteFault>
    requires goes_on { printer.old.stopped ≡ false }
    ensures { Prints result (text_of (map (note_line files.now) notes.now)) printer.old printer.new }
{
    for note in notes {
        let at = position_of(files, note.place);
        let why = printed_note(note.why);
        printer.print(&Line::Note { at, why })?;
    }
    Ok(())
}

/// Why an entry changes nothing, or less than it says, as it is printed.
fn printed_note(why: NoteWhy) -> PrintedWhy
    ensures { result ≡ printed_note why }
{
    match why {
        NoteWhy::Passed => PrintedWhy::Passed,
        NoteWhy::Port => PrintedWhy::Port,
        NoteWhy::Instance => PrintedWhy::Instance,
        NoteWhy::Generic => PrintedWhy::Generic,
        NoteWhy::Negative => PrintedWhy::Negative,
    }
}

/// Runs a design with delays and the stimuli of a text.
fn simulate_timed<K: Sink>(
    alloc: Global,
    asked: Simulated<'_>,
    design: &Design<'_>,
    values: &[Values],
    printer: &mut Printer<'_, K>,
) -> Status
    requires fit { AllZip (λ i delays. FitsCell i.cell delays) (cell_instances design.now) values.now }
    requires short { length asked.text.now ≤ 16_777_216 }
    requires until { asked.sim.now.until ≤ 2 ^ 60 }
    requires limit { 1 ≤ asked.sim.now.limit }
    requires goes_on { printer.old.stopped ≡ false }
    ensures { Stage (IsTimedAnswer asked.entry.sim.now asked.entry.name.now asked.entry.text.now design.now values.now) result printer.old printer.new }
{
    match read_stim(alloc, asked.text, Some(design.ports())) {
        Ok(stimuli) => simulate_stimuli(alloc, asked.sim, design, values, &stimuli, printer),
        Err(StimError::Fault(fault)) => refuse_stimuli(asked.name, fault, printer),
        Err(StimError::NoMemory) => Status::NoMemory,
    }
}

/// Delays, each borrowed.
fn lent_values<'a>(alloc: Global, values: &'a [Values]) -> Result<Vec<&'a Values>, AllocError>
    ensures { IfOk result (λ lent. map (λ v. v.now) lent.items ≡ values.now) }
{
    values.iter().collect(alloc)
}

/// Runs a design with delays and with stimuli for the bits of its ports.
fn simulate_stimuli<K: Sink>(
    alloc: Global,
    sim: &Sim,
    design: &Design<'_>,
    values: &[Values],
    stimuli: &Stimuli,
    printer: &mut Printer<'_, K>,
) -> Status
    requires delays { AllZip (λ i delays. FitsCell i.cell delays) (cell_instances design.now) values.now }
    requires ports { stimuli.now.ports ≡ design.now.ports }
    requires fit { All (Fits stimuli.now) stimuli.now.lines }
    requires in_order { IsNonDecreasing (map (λ line. line.time) stimuli.now.lines) }
    requires until { sim.now.until ≤ 2 ^ 60 }
    requires limit { 1 ≤ sim.now.limit }
    requires goes_on { printer.old.stopped ≡ false }
    ensures { Stage (IsRunAnswer (simulated sim.now design.now values.now stimuli.now.lines) stimuli.now.lines sim.now.until sim.now.limit) result printer.old printer.new }
{
    let Ok(lent) = lent_values(alloc, values) else {
        return Status::NoMemory;
    };
    let lines = stimuli.lines.as_slice();
    let Ok(network) = Network::of_design(alloc, design, lent.as_slice(), lines, sim.watch) else {
        return Status::NoMemory;
    };
    run_network(alloc, &network, lines, sim.until, sim.limit, printer)
}
