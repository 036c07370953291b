//! What every other crate stands on: times, names and small lists, places and the clauses broken at them, and the devices that a
//! run reads from and writes to.
#![tactic(auto)]

mod breach;
mod bytes;
mod corner;
mod failed;
mod file_shelf;
mod kind;
mod list;
mod load;
mod mem_shelf;
mod mem_sink;
mod place;
mod ports;
mod shelf;
mod sink;
mod std_sink;
mod time;
mod watch;
mod write;

pub use breach::{Breach, Breaches, Clause};
pub use bytes::{Argument, Bytes, BytesOf, Content, Name, Naming, Word};
pub use corner::Corner;
pub use failed::Failed;
pub use file_shelf::FileShelf;
pub use kind::Kind;
pub use list::List;
pub use load::{LONGEST_FILE, LoadError, read_file};
pub use mem_shelf::{MemFile, MemShelf};
pub use mem_sink::MemSink;
pub use place::Place;
pub use ports::{PortBit, Ports};
pub use shelf::Shelf;
pub use sink::Sink;
pub use std_sink::StdSink;
pub use time::{GREATEST_TIME, Time, TimeUnit, read_number};
pub use watch::Watch;
pub use write::{WriteFault, write_all};
