//! The command `self`: a netlist that a seed draws is simulated, and its events and messages are counted.

ghost use Rattle.std.specs.Prelude.{◌≡◌, ◌≢◌, ◌≤◌, true, false, length, map, All, IfOk, Ok};
ghost use Rattle.vital_base.specs.Faults.{Rose};
ghost use Rattle.vital_report.specs.Lines.{said, text_of};
ghost use Rattle.vital_report.specs.Reporters.{Prints};
ghost use Rattle.vital_answers.specs.Answer.{Answer};
ghost use Rattle.vital_answers.specs.Outcome.{Gives, Stage};
ghost use Rattle.vital_run.specs.Selves.{last_line, last_text, named, repeats_last_line, self_job, self_sources, tallied_answer};
ghost use Rattle.vital_run.specs.Stages.{IsDrawnAnswer, IsLoadedAnswer, IsSelfAnswer};
ghost use Rattle.vital_words.specs.Given.{IsBounded, NamesIn};

use crate::program::finish;
use crate::stages::run_sources;
use std::alloc::{AllocError, Global};
use vital_answers::{Source, Status, end_with};
use vital_base::{Corner, List, MemSink, Name, Sink, Watch, WriteFault};
use vital_report::{Line, Printer, Reporter, TallySink};
use vital_self::{Texts, texts_of};
use vital_words::{FileKind, Job, NamedFile, SelfRun, Sim, Task};

/// When the simulation ends, in femtoseconds.
const UNTIL: u64 = 40_000_000;

/// Simulates the netlist that a seed draws, and prints how many events and glitches there were; or the line that refused it.
pub fn run_self<K: Sink>(alloc: Global, run: SelfRun, printer: &mut Printer<'_, K>) -> Status
    requires cells { (1 ≤ run.cells) × (run.cells ≤ 10_000) }
    requires goes_on { printer.old.stopped ≡ false }
    ensures { Stage (IsSelfAnswer run) result printer.old printer.new }
{
    let Ok(job) = self_job(alloc) else {
        return Status::NoMemory;
    };
    let Ok(sources) = self_sources(alloc, run) else {
        return Status::NoMemory;
    };
    run_drawn(alloc, run, &job, &sources, printer)
}

/// The job that is run.
#[tactic(auto, unfolding(crate::specs::Selves::self_job))]
fn self_job(alloc: Global) -> Result<Job, AllocError>
    ensures job { IfOk result (λ job. job ≡ self_job) }
    ensures files { IfOk result (λ job. length job.files ≡ 3) }
    ensures names_in { IfOk result NamesIn }
    ensures bounded { IfOk result IsBounded }
{
    let mut files = Vec::new(alloc);
    files.push(named(alloc, FileKind::Lib, b"and2.vhd")?)?;
    files.push(named(alloc, FileKind::Net, b"g.vhd")?)?;
    files.push(named(alloc, FileKind::Stim, b"s")?)?;
    let task = Task::Sim(Sim {
        stim: 2,
        top: Name::new(Vec::from_slice(alloc, b"g")?),
        until: UNTIL,
        corner: Corner::Typ,
        limit: 1_000,
        watch: Watch::All,
    });
    Ok(Job {
        files: List::new(files),
        task,
    })
}

/// A file of a kind with a name.
fn named(alloc: Global, kind: FileKind, name: &[u8]) -> Result<NamedFile, AllocError>
    ensures { IfOk result (λ file. file ≡ named kind name.now) }
{
    let name = Name::new(Vec::from_slice(alloc, name)?);
    Ok(NamedFile { kind, name })
}

/// The files of the job, as if they were loaded.
#[tactic(auto, unfolding(crate::specs::Selves::self_sources))]
fn self_sources(alloc: Global, run: SelfRun) -> Result<List<Source>, AllocError>
    requires cells { (1 ≤ run.cells) × (run.cells ≤ 10_000) }
    ensures sources { IfOk result (λ sources. sources ≡ self_sources run) }
    ensures within { IfOk result (All (λ source. length source.text ≤ 16_777_216)) }
    ensures count { IfOk result (λ sources. length sources ≡ 3) }
{
    let texts = texts_of(alloc, run.seed, run.cells)?;
    let mut sources = Vec::new(alloc);
    let kind = FileKind::Lib;
    let text = texts.library;
    sources.push(Source { kind, text })?;
    let kind = FileKind::Net;
    let text = texts.netlist;
    sources.push(Source { kind, text })?;
    let kind = FileKind::Stim;
    let text = texts.stimuli;
    sources.push(Source { kind, text })?;
    Ok(List::new(sources))
}

/// Runs a job with these sources, and prints what is told of it.
fn run_drawn<K: Sink>(
    alloc: Global,
    run: SelfRun,
    job: &Job,
    sources: &List<Source>,
    printer: &mut Printer<'_, K>,
) -> Status
    requires few { length sources.now ≤ 34 }
    requires within { All (λ source. length source.text ≤ 16_777_216) sources.now }
    requires count { length sources.now ≡ length job.now.files }
    requires names_in { NamesIn job.now }
    requires bounded { IsBounded job.now }
    requires goes_on { printer.old.stopped ≡ false }
    ensures { Stage (IsDrawnAnswer run job.now sources.now) result printer.old printer.new }
{
    let mut tally = TallySink::new();
    let status = run_over(alloc, job, sources, &mut tally);
    match status {
        Status::Done => print_tally(run, &tally, printer),
        Status::NoMemory => Status::NoMemory,
        Status::ReadFault | Status::WriteFault => unreachable!(),
        _ => print_refusal(alloc, job, sources, status, printer),
    }
}

/// Runs a job with these sources over a sink, which gets all that it writes.
fn run_over<K: Sink>(alloc: Global, job: &Job, sources: &List<Source>, sink: &mut K) -> Status
    requires few { length sources.now ≤ 34 }
    requires within { All (λ source. length source.text ≤ 16_777_216) sources.now }
    requires count { length sources.now ≡ length job.now.files }
    requires names_in { NamesIn job.now }
    requires bounded { IsBounded job.now }
    ensures gives { (answer : Answer) → IsLoadedAnswer job.now (Ok sources.now) answer → Gives answer result (K.told sink.old) (K.told sink.new) }
    ensures no_read_fault { result ≢ Status.ReadFault }
    ensures write_fault_rose { result ≡ Status.WriteFault → Rose (K.faults sink.old) (K.faults sink.new) }
{
    let Ok(reporter) = Reporter::new(alloc) else {
        return Status::NoMemory;
    };
    let mut printer = Printer::new(reporter, sink);
    let status = run_sources(alloc, job, sources, &mut printer);
    let ended = finish(status, &mut printer);
    let _ = printer.into_sink();
    ended
}

/// Prints what a tally counted.
fn print_tally<K: Sink>(run: SelfRun, tally: &TallySink, printer: &mut Printer<'_, K>) -> Status
    requires goes_on { printer.old.stopped ≡ false }
    ensures { Stage (λ answer. answer ≡ tallied_answer run tally.now) result printer.old printer.new }
{
    let lines = [
        Line::SelfHead {
            seed: run.seed,
            cells: run.cells,
        },
        Line::Events {
            count: tally.events(),
        },
        Line::Messages {
            count: tally.glitches(),
        },
        Line::End { time: UNTIL },
    ];
    match print_lines(&lines, printer) {
        Ok(()) => Status::Done,
        Err(WriteFault) => Status::WriteFault,
    }
}

/// Prints lines.
fn print_lines<K: Sink>(lines: &[Line<'_>], printer: &mut Printer<'_, K>) -> Result<(), WriteFault>
    requires goes_on { printer.old.stopped ≡ false }
    ensures { Prints result (text_of (map said lines.now)) printer.old printer.new }
{
    for line in lines {
        printer.print(line)?;
    }
    Ok(())
}

/// Runs a job again that was refused with this status, over memory, and prints the line that refused it.
fn print_refusal<K: Sink>(
    alloc: Global,
    job: &Job,
    sources: &List<Source>,
    refused_so: Status,
    printer: &mut Printer<'_, K>,
) -> Status
    requires few { length sources.now ≤ 34 }
    requires within { All (λ source. length source.text ≤ 16_777_216) sources.now }
    requires count { length sources.now ≡ length job.now.files }
    requires names_in { NamesIn job.now }
    requires bounded { IsBounded job.now }
    requires refused { repeats_last_line refused_so ≡ true }
    requires goes_on { printer.old.stopped ≡ false }
    ensures { Stage (λ answer. (inner : Answer) × IsLoadedAnswer job.now (Ok sources.now) inner × (answer ≡ last_line refused_so inner.bytes))
        result printer.old printer.new }
{
    let mut sink = MemSink::new(alloc, u32::MAX, List::new(Vec::new(alloc)));
    let again = run_over(alloc, job, sources, &mut sink);
    if again.is_failure() {
        return Status::NoMemory;
    }
    let text = last_text(sink.bytes());
    end_with(&Line::Text { text }, refused_so, printer)
}

/// The last line of an answer without the LF that ends both.
fn last_text(bytes: &[u8]) -> &[u8]
    ensures { result.now ≡ last_text bytes.now }
{
    let text = &bytes[..bytes.len().saturating_sub(1)];
    let mut line = text;
    for at in 0..text.len() {
        if text[at] == b'\n' {
            line = &text[at + 1..];
        }
    }
    line
}
