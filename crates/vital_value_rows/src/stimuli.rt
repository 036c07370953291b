//! Stimuli of texts.

ghost use Rattle.std.specs.Prelude.{◌≤◌, ◌<◌, ◌^◌, length, IfSome};

use super::words::{Said, bytes_of, letter, lines_of, word};
use std::alloc::{AllocError, Global};
use vital_base::{List, Name, PortBit, Ports};
use vital_row_files::GivenFile;
use vital_stim::{StimError, Stimuli, read_stim};

/// The given port of a line: its name, `in` or `out`, and its first level.
fn port_of(alloc: Global, words: &[&str]) -> Result<PortBit, AllocError> {
    Ok(PortBit {
        name: Name::new(word(words, 0).as_bytes().to_vec(alloc)?),
        input: word(words, 1) == "in",
        initial: word(words, 2).as_bytes().first().copied().unwrap_or(b'?'),
    })
}

/// The given ports of a row.
fn ports_of(alloc: Global, files: &[GivenFile]) -> Result<Ports, AllocError> {
    let mut ports = Vec::new(alloc);
    for line in lines_of(alloc, files, "ports")?.as_slice() {
        ports.push(port_of(alloc, line.as_slice())?)?;
    }
    Ok(List::new(ports))
}

/// What the text of a row says: of given ports, where there is a file of them.
pub fn say(alloc: Global, files: &[GivenFile]) -> Said {
    let text = bytes_of(files, "stim");
    let ports = ports_of(alloc, files)?;
    if text.len() > 16_777_216 || ports.as_slice().len() > 1000 {
        return Ok(None);
    }
    if files.iter().any(|file| file.name.as_str() == "ports") {
        said_of(alloc, text, Some(&ports))
    } else {
        said_of(alloc, text, None)
    }
}

/// The ports and lines of a text, or the first line with a fault and the test that it fails.
fn said_of(alloc: Global, text: &[u8], ports: Option<&Ports>) -> Said
    requires short { length text.now ≤ 16_777_216 }
    requires few { IfSome ports (λ given. length given.now < 2 ^ 32) }
{
    match read_stim(alloc, text, ports) {
        Ok(stimuli) => written(alloc, &stimuli),
        Err(StimError::Fault(fault)) => {
            let (line, why) = (fault.line, fault.why);
            let said = format!(in alloc; "{line} {why:?}\n")?;
            Ok(Some(said))
        }
        Err(StimError::NoMemory) => Err(AllocError),
    }
}

/// Says a port: its name, whether it is an input, and its first level.
fn put_port(said: &mut String, port: &PortBit) -> Result<(), AllocError> {
    let name = std::str::from_utf8(port.name.as_slice()).unwrap_or("?");
    let mode = if port.input { "in" } else { "out" };
    write!(said, "{name} {mode} {}\n", char::from(port.initial))?;
    Ok(())
}

/// A line for each port, and then one for each line: its time, the number of its port and its level.
fn written(alloc: Global, stimuli: &Stimuli) -> Said {
    let mut said = String::new(alloc);
    for port in stimuli.ports.as_slice() {
        put_port(&mut said, port)?;
    }
    for line in stimuli.lines.as_slice() {
        let value = letter(line.value);
        write!(said, "{} {} {value}\n", line.time, line.port)?;
    }
    Ok(Some(said))
}
