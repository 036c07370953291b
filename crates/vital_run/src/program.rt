//! The one call that does all that the program does.

ghost use Rattle.std.specs.Prelude.{◌≡◌, ◌≢◌, ◌≤◌, false, length, IfSome};
ghost use Rattle.vital_base.specs.Faults.{Rose};
ghost use Rattle.vital_answers.specs.Answer.{Answer};
ghost use Rattle.vital_answers.specs.Loading.{OpensFiles};
ghost use Rattle.vital_run.specs.Selves.{asked_files, files_of};
ghost use Rattle.vital_answers.specs.Outcome.{Finishes, Gives, Runs};
ghost use Rattle.vital_run.specs.Selves.{drawn_by};
ghost use Rattle.vital_run.specs.Stages.{IsAnswer, IsAskedAnswer, IsJobAnswer, IsOnlyAnswer};
ghost use Rattle.vital_words.specs.Given.{IsBounded, IsBoundedTask, NamesIn};
ghost use Rattle.vital_words.specs.Jobs.{job};

use crate::self_run::run_self;
use crate::stages::run_job;
use std::alloc::Global;
use vital_answers::{Status, refuse_words};
use vital_base::{Shelf, Sink, Word, WriteFault};
use vital_instances::one_judge;
use vital_kernel::{one_run, port_run};
use vital_level0::one_first_breach;
use vital_report::{Printer, Reporter};
use vital_vhdl::one_reading;
use vital_words::{Job, JobError, SelfRun, Task, read_job};

/// Answers the words of a command line: reads what they name from the shelf, and writes the answer's lines to the sink.
///
/// What is written and the status are those of the one answer that the definition `IsAnswer` gives, for every list of words
/// and all files; unless the shelf, the sink or memory failed, when a prefix was written.
pub fn run<S: Shelf, K: Sink>(
    alloc: Global,
    words: &Vec<Word>,
    shelf: &mut S,
    sink: &mut K,
) -> Status
    // There is one answer. The status is its status and all its bytes were written, or a prefix of them where writing or
    // memory failed.
    ensures answered { IfSome (S.files shelf.old) (λ files. (answer : Answer) × IsOnlyAnswer words.now.items files answer
        × Gives answer result (K.told sink.old) (K.told sink.new)) }

    // Of the files that the words name the first ones are opened, in order and each once, and nothing else; and none is read
    // after its end.
    ensures opens_named_files { OpensFiles (files_of (job words.now.items)) result (S.history shelf.old) (S.history shelf.new) }

    // Reading failed only where the shelf did, and over a steady shelf only where the answer says so.
    ensures read_fault_rose { result ≡ Status.ReadFault → Rose (S.faults shelf.old) (S.faults shelf.new) }
    ensures read_fault_is_the_answer { result ≡ Status.ReadFault → S.is_steady shelf.old
        → IfSome (S.files shelf.old) (λ files. (answer : Answer) → IsAnswer words.now.items files answer → answer.status ≡ Status.ReadFault) }
    ensures read_fault_writes_nothing { result ≡ Status.ReadFault → K.told sink.new ≡ K.told sink.old }

    // Writing failed only where the sink did.
    ensures write_fault_rose { result ≡ Status.WriteFault → Rose (K.faults sink.old) (K.faults sink.new) }

    // Where the status is no such failure the counts stand still, and they never fall.
    ensures shelf_stands_still { result ≢ Status.ReadFault → S.faults shelf.new ≡ S.faults shelf.old }
    ensures sink_stands_still { result ≢ Status.WriteFault → K.faults sink.new ≡ K.faults sink.old }
    ensures shelf_never_falls { S.faults shelf.old ≤ S.faults shelf.new }
    ensures sink_never_falls { K.faults sink.old ≤ K.faults sink.new }
{
    one_reading();
    vital_sdf::one_reading();
    one_first_breach();
    one_judge();
    one_run();
    port_run();
    let Ok(reporter) = Reporter::new(alloc) else {
        return Status::NoMemory;
    };
    let mut printer = Printer::new(reporter, sink);
    let status = run_words(alloc, words, shelf, &mut printer);
    let ended = finish(status, &mut printer);
    let _ = printer.into_sink();
    ended
}

/// Runs the job that the words ask for, or refuses them.
fn run_words<S: Shelf, K: Sink>(
    alloc: Global,
    words: &[Word],
    shelf: &mut S,
    printer: &mut Printer<'_, K>,
) -> Status
    requires goes_on { printer.old.stopped ≡ false }
    ensures runs { Runs (λ files. IsJobAnswer files (job words.now)) result
        (S.files shelf.old) (S.is_steady shelf.old) (S.faults shelf.old) (S.faults shelf.new) printer.old printer.new }
    ensures opens { OpensFiles (files_of (job words.now)) result (S.history shelf.old) (S.history shelf.new) }
{
    match read_job(alloc, words) {
        Ok(job) => answer_job(alloc, &job, shelf, printer),
        Err(JobError::Usage(fault)) => refuse_words(fault, printer),
        Err(JobError::NoMemory) => Status::NoMemory,
    }
}

/// Answers a job: `self` draws its files, and the others are loaded.
fn answer_job<S: Shelf, K: Sink>(
    alloc: Global,
    job: &Job,
    shelf: &mut S,
    printer: &mut Printer<'_, K>,
) -> Status
    requires few { length job.now.files ≤ 34 }
    requires names_in { NamesIn job.now }
    requires bounded { IsBounded job.now }
    requires goes_on { printer.old.stopped ≡ false }
    ensures runs { Runs (λ files. IsAskedAnswer files job.now (drawn_by job.now.task)) result
        (S.files shelf.old) (S.is_steady shelf.old) (S.faults shelf.old) (S.faults shelf.new) printer.old printer.new }
    ensures opens { OpensFiles (asked_files (drawn_by job.now.task) job.now.files) result (S.history shelf.old) (S.history shelf.new) }
{
    match drawn_by(&job.task) {
        Some(run) => run_self(alloc, run, printer),
        None => run_job(alloc, job, shelf, printer),
    }
}

/// What a task draws and simulates, where it is that of `self`.
fn drawn_by(task: &Task) -> Option<SelfRun>
    requires bounded { IsBoundedTask task.now }
    ensures run { result ≡ drawn_by task.now }
    ensures cells { IfSome result (λ run. (1 ≤ run.cells) × (run.cells ≤ 10_000)) }
{
    match task {
        Task::SelfRun(run) => Some(*run),
        Task::Play(_) | Task::Check | Task::Tree(_) | Task::Sim(_) => None,
    }
}

/// Writes what is still held of an answer that ended with this status. After a failure there is nothing to write.
pub fn finish<K: Sink>(status: Status, printer: &mut Printer<'_, K>) -> Status
    ensures { Finishes status result printer.old printer.new }
{
    match status {
        Status::ReadFault | Status::WriteFault | Status::NoMemory => status,
        _ => match printer.flush() {
            Ok(()) => status,
            Err(WriteFault) => Status::WriteFault,
        },
    }
}
