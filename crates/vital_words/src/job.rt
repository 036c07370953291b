//! What the words of a command line ask for.

ghost use Rattle.std.specs.Prelude.{◌≡◌, ◌^◌, ◌≤◌, ◌<◌, length, position, List as List', IfOk, IfSome, Ok};
ghost use Rattle.std.specs.List.{filter_map};
ghost use Rattle.std.specs.Option.{option_map};
ghost use Rattle.vital_words.specs.Jobs.{file_of, file_in, is_stim, corner_of, limit_of, play_of, sim_of, tree_of, task_of, watch_of, self_run_of, job_of, job};
ghost use Rattle.vital_words.specs.Given.{GivesJob, IsBounded, IsBoundedTask, NamesIn};
ghost use Rattle.vital_words.specs.declared.job.JobError.TheVariants.{NoMemory};

use crate::command::{Command, KeyRule};
use crate::key::{
    FileKind, Key, cells_of, corner_named, delta_limit, end_time, seed_of, watch_named,
};
use crate::refusal::{UsageFault, UsageWhy, first_fault, missing};
use std::alloc::{AllocError, Global};
use vital_base::{Corner, List, Name, Time, Watch, Word};

/// What the words of a command line ask for.
#[derive(Drop)]
pub struct Job {
    /// The files that they name, in the order of the words.
    pub files: List<NamedFile>,
    /// What is done with them.
    pub task: Task,
}

/// A file that a word names.
#[derive(Drop)]
pub struct NamedFile {
    pub kind: FileKind,
    pub name: Name,
}

/// What is done with the files of a job.
#[derive(Drop)]
pub enum Task {
    /// Their stimuli are played.
    Play(Play),
    /// The cells of their library are checked.
    Check,
    /// The design that they make is printed.
    Tree(Tree),
    /// The design that they make is simulated.
    Sim(Sim),
    /// A netlist that a seed draws is simulated. The job has no files.
    SelfRun(SelfRun),
}

/// What `play` plays.
#[derive(Clone, Copy)]
pub struct Play {
    /// The number of the stimulus file, counted from 0 among the files of the job.
    pub stim: usize,
    /// The end time, in femtoseconds.
    pub until: Time,
}

/// What `tree` prints.
#[derive(Drop)]
pub struct Tree {
    /// The name of the top of the design, in small letters.
    pub top: Name,
}

/// What `sim` simulates.
#[derive(Drop)]
pub struct Sim {
    /// The number of the stimulus file, counted from 0 among the files of the job.
    pub stim: usize,
    /// The name of the top of the design, in small letters.
    pub top: Name,
    /// The end time, in femtoseconds.
    pub until: Time,
    /// Which values of the files of delays are taken.
    pub corner: Corner,
    /// A cycle with this delta number does not begin: 1 to 1,000,000.
    pub limit: u32,
    /// The signals whose first values and events are printed.
    pub watch: Watch,
}

/// What `self` draws and simulates.
#[derive(Clone, Copy)]
pub struct SelfRun {
    /// The number that draws begin with.
    pub seed: u64,
    /// How many cells there are: 1 to 10,000.
    pub cells: u32,
}

/// Why there is no job.
#[derive(Clone, Copy, PartialEq, Eq)]
pub enum JobError {
    Usage(UsageFault),
    NoMemory,
}

impl From<AllocError> for JobError {
    ghost from_gives = { λ _ e. e ≡ NoMemory };

    fn from(_error: AllocError) -> JobError {
        JobError::NoMemory
    }
}

/// What the words ask for, or the first fault from left to right; or want of memory.
pub fn read_job(alloc: Global, words: &[Word]) -> Result<Job, JobError>
    ensures job { GivesJob result (job words.now) }
    ensures few_files { IfOk result (λ found. length found.files ≤ 34) }
    ensures names_in { IfOk result NamesIn }
    ensures bounded { IfOk result IsBounded }
{
    let refused = Err(JobError::Usage(UsageFault {
        word: 1,
        why: UsageWhy::Command,
    }));
    match words {
        [] => refused,
        [command, others @ ..] => match Command::named(command.as_slice()) {
            Some(command) => job_of(alloc, command, others),
            None => refused,
        },
    }
}

/// What the words after a command ask for.
fn job_of(alloc: Global, command: Command, words: &[Word]) -> Result<Job, JobError>
    ensures job { GivesJob result (job_of command words.now) }
    ensures few_files { IfOk result (λ found. length found.files ≤ 34) }
    ensures names_in { IfOk result NamesIn }
    ensures bounded { IfOk result IsBounded }
{
    let rules = command.rules();
    if let Some(fault) = first_fault(rules, words) {
        return Err(JobError::Usage(fault));
    }
    let files = files_in(alloc, rules, words)?;
    match task_of(alloc, command, &files, words)? {
        Some(task) => Ok(Job {
            files: List::new(files),
            task,
        }),
        None => Err(JobError::Usage(missing(words.len()))),
    }
}

/// The files that words name, in order.
fn files_in(alloc: Global, rules: &[KeyRule], words: &[Word]) -> Result<Vec<NamedFile>, AllocError>
    ensures { IfOk result (λ files. files.items ≡ filter_map (file_in rules.now) words.now) }
{
    let mut files = Vec::new(alloc);
    for word in words {
        if let Some((kind, name)) = file_in(rules, word.as_slice()) {
            files.push(NamedFile {
                kind,
                name: Name::new(Vec::from_slice(alloc, name)?),
            })?;
        }
    }
    Ok(files)
}

/// The kind and the name of the file that a word names, where it names one.
fn file_in<'a>(rules: &[KeyRule], word: &'a [u8]) -> Option<(FileKind, &'a [u8])>
    ensures { option_map (λ file. record { kind = file.0; name = file.1.now }) result ≡ file_in rules.now word.now }
{
    for rule in rules {
        if let Some(value) = rule.key.value_in(word) {
            return file_of(rule.key, value);
        }
    }
    None
}

/// The kind and the name of the file that a value names, where its key is one for files.
fn file_of<'a>(key: Key, value: &'a [u8]) -> Option<(FileKind, &'a [u8])>
    ensures { option_map (λ file. record { kind = file.0; name = file.1.now }) result ≡ file_of key value.now }
{
    match key {
        Key::File(kind) => Some((kind, value)),
        Key::Until | Key::Top | Key::Corner | Key::Delta | Key::Watch | Key::Seed | Key::Cells =>
            None,
    }
}

/// What a command does with these files, which the words after it name.
fn task_of(
    alloc: Global,
    command: Command,
    files: &[NamedFile],
    words: &[Word],
) -> Result<Option<Task>, AllocError>
    ensures task { IfOk result (λ found. found ≡ task_of command files.now words.now) }
    ensures names_in { IfOk result (λ found. IfSome found (λ task. NamesIn (record { files = files.now; task = task }))) }
    ensures bounded { IfOk result (λ found. IfSome found IsBoundedTask) }
{
    match command {
        Command::Play => Ok(play_of(files, words).map(Task::Play)),
        Command::Check => Ok(Some(Task::Check)),
        Command::Tree => Ok(tree_of(alloc, words)?.map(Task::Tree)),
        Command::Sim => Ok(sim_of(alloc, files, words)?.map(Task::Sim)),
        Command::SelfRun => Ok(self_run_of(words).map(Task::SelfRun)),
    }
}

/// What `play` plays.
fn play_of(files: &[NamedFile], words: &[Word]) -> Option<Play>
    ensures play { result ≡ play_of files.now words.now }
    ensures stim { IfSome result (λ play. play.stim < length files.now) }
    ensures until { IfSome result (λ play. play.until ≤ 2 ^ 60) }
{
    let stim = first_stim(files)?;
    let until = end_time(Key::Until.value(words)?)?;
    Some(Play { stim, until })
}

/// What `tree` prints.
fn tree_of(alloc: Global, words: &[Word]) -> Result<Option<Tree>, AllocError>
    ensures { IfOk result (λ found. found ≡ tree_of words.now) }
{
    match Key::Top.value(words) {
        Some(top) => {
            let top = Name::new(top.to_ascii_lowercase(alloc)?);
            Ok(Some(Tree { top }))
        }
        None => Ok(None),
    }
}

/// The limit of delta numbers, which is 1,000 where no word gives one.
fn limit_of(words: &[Word]) -> u32
    ensures limit { result ≡ limit_of words.now }
    ensures bounded { (1 ≤ result) × (result ≤ 1_000_000) }
{
    Key::Delta
        .value(words)
        .and_then(delta_limit)
        .unwrap_or(1_000)
}

/// Which values of the files of delays are taken, which are the typical ones where no word says.
fn corner_of(words: &[Word]) -> Corner
    ensures { result ≡ corner_of words.now }
{
    Key::Corner
        .value(words)
        .and_then(corner_named)
        .unwrap_or(Corner::Typ)
}

/// The signals that are watched, which are the ports where no word says.
fn watch_of(words: &[Word]) -> Watch
    ensures { result ≡ watch_of words.now }
{
    Key::Watch
        .value(words)
        .and_then(watch_named)
        .unwrap_or(Watch::Ports)
}

/// What `sim` simulates.
fn sim_of(alloc: Global, files: &[NamedFile], words: &[Word]) -> Result<Option<Sim>, AllocError>
    ensures sim { IfOk result (λ found. found ≡ sim_of files.now words.now) }
    ensures stim { IfOk result (λ found. IfSome found (λ sim. sim.stim < length files.now)) }
    ensures bounded { IfOk result (λ found. IfSome found (λ sim. IsBoundedTask (Task.Sim sim))) }
{
    let Some(Play { stim, until }) = play_of(files, words) else {
        return Ok(None);
    };
    match tree_of(alloc, words)? {
        Some(tree) => Ok(Some(Sim {
            stim,
            top: tree.top,
            until,
            corner: corner_of(words),
            limit: limit_of(words),
            watch: watch_of(words),
        })),
        None => Ok(None),
    }
}

/// What `self` draws and simulates.
fn self_run_of(words: &[Word]) -> Option<SelfRun>
    ensures run { result ≡ self_run_of words.now }
    ensures bounded { IfSome result (λ run. IsBoundedTask (Task.SelfRun run)) }
{
    let seed = seed_of(Key::Seed.value(words)?)?;
    let cells = cells_of(Key::Cells.value(words)?)?;
    Some(SelfRun { seed, cells })
}

fn first_stim(files: &[NamedFile]) -> Option<usize>
    ensures at { result ≡ position is_stim files.now }
    ensures within { IfSome result (λ at. at < length files.now) }
{
    files
        .iter()
        .position(|file| matches!(file.kind, FileKind::Stim))
}
