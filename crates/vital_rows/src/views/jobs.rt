//! What words ask for.

use super::words::{Lines, put_bytes, put_named};
use std::alloc::{AllocError, Global};
use vital_base::{Corner, Watch, Word};
use vital_words::{FileKind, Job, JobError, NamedFile, Play, SelfRun, Sim, Task, Tree, read_job};

fn kind_word(kind: FileKind) -> &'static str {
    match kind {
        FileKind::Lib => "lib",
        FileKind::Net => "net",
        FileKind::Stim => "stim",
        FileKind::Sdf => "sdf",
    }
}

fn corner_word(corner: Corner) -> &'static str {
    match corner {
        Corner::Min => "min",
        Corner::Typ => "typ",
        Corner::Max => "max",
    }
}

fn watch_word(watch: Watch) -> &'static str {
    match watch {
        Watch::Ports => "ports",
        Watch::All => "all",
    }
}

fn put_sim(out: Lines<'_>, sim: &Sim) -> Result<(), AllocError> {
    put_named(out, "sim top", sim.top.as_slice())?;
    write!(
        out,
        " stim {} until {} delta {}",
        sim.stim, sim.until, sim.limit
    )?;
    let watch = watch_word(sim.watch);
    let corner = corner_word(sim.corner);
    write!(out, " watch {watch} corner {corner}")
}

fn put_task(out: Lines<'_>, task: &Task) -> Result<(), AllocError> {
    match task {
        Task::Play(Play { stim, until }) => write!(out, "play stim {stim} until {until}"),
        Task::Check => out.push_str("check"),
        Task::Tree(Tree { top }) => put_named(out, "tree top", top.as_slice()),
        Task::Sim(sim) => put_sim(out, sim),
        Task::SelfRun(SelfRun { seed, cells }) => write!(out, "self seed {seed} cells {cells}"),
    }
}

/// Puts a line for each file, and then how many there are and how many bytes their names have.
fn put_files(out: Lines<'_>, files: &[NamedFile]) -> Result<(), AllocError> {
    let mut bytes = 0usize;
    for file in files {
        let name = file.name.as_slice();
        put_named(out, kind_word(file.kind), name)?;
        out.push_str("\n")?;
        bytes = bytes.wrapping_add(name.len());
    }
    write!(out, "files {} bytes {bytes}\n", files.len())
}

fn put_job(out: Lines<'_>, job: &Job) -> Result<(), AllocError> {
    put_task(out, &job.task)?;
    out.push_str("\n")?;
    put_files(out, job.files.as_slice())
}

/// A line for the task of the job that words ask for, and then its files; or `refused`.
pub fn job_lines(alloc: Global, words: &[Word]) -> Result<String, AllocError> {
    let mut out = String::new(alloc);
    match read_job(alloc, words) {
        Ok(job) => put_job(&mut out, &job)?,
        Err(JobError::Usage(_)) => out.push_str("refused\n")?,
        Err(JobError::NoMemory) => return Err(AllocError),
    }
    Ok(out)
}
