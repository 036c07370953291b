//! The files of the system as a shelf reads them, written to standard output by a sink.

use std::alloc::{AllocError, Global};
use std::test::Fail;
use vital_base::{FileShelf, Name, Shelf, Sink, StdSink, read_file, write_all};

/// The names that are read: a file, one without an end, none, and one that is no UTF-8.
const NAMES: [&[u8]; 4] = [
    b"/proc/sys/kernel/ostype",
    b"/dev/zero",
    b"/no/such/file",
    b"\xff",
];

/// What comes of reading a file: its text, or why it isn't read.
fn said_of<S: Shelf>(alloc: Global, shelf: &mut S, name: &[u8]) -> Result<String, AllocError> {
    let name = Name::new(name.to_vec(alloc)?);
    match read_file(alloc, shelf, &name) {
        Ok(bytes) => {
            let text = std::str::from_utf8(bytes.as_slice()).unwrap_or("?");
            text.to_string(alloc)
        }
        Err(error) => format!(in alloc; "{error}\n"),
    }
}

/// Writes what comes of reading some files of the system, and of reading on where none is open.
pub fn show(rt: &HostRuntime) -> Result<(), Fail> {
    let mut shelf = FileShelf::new(rt);
    let mut sink = StdSink::new(rt);
    for name in NAMES {
        let said = said_of(rt.alloc(), &mut shelf, name)?;
        write_all(&mut sink, said.as_bytes())?;
    }
    let is_closed = shelf.read(&mut [0; 8]).is_err();
    write_all(&mut sink, if is_closed { b"closed\n" } else { b"open\n" })?;
    sink.note_stuck();
    Ok(())
}
