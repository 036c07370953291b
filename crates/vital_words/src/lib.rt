//! The words of a command line: the commands with their keys, and the job that words ask for.
#![tactic(auto)]

mod command;
mod job;
mod key;
mod refusal;

pub use command::{Command, KeyRule};
pub use job::{Job, JobError, NamedFile, Play, SelfRun, Sim, Task, Tree, read_job};
pub use key::{FileKind, Key};
pub use refusal::{UsageFault, UsageWhy};
