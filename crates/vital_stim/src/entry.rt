//! What one line says.

ghost use Rattle.std.specs.Prelude.{◌≡◌, [], ◌∷◌, ℕ, List, Some, if◌then◌else◌};
ghost use Rattle.vital_base.specs.Times.{number_of};
ghost use Rattle.vital_stim.specs.Stimuli.{value_named, stimulus_of, stimulus_after};
ghost use Rattle.vital_stim.specs.Entry.{stimulus_result};
ghost use Rattle.vital_stim.specs.Parts.{fields_of};
ghost use Rattle.vital_stim.specs.PortForm.{is_port};
ghost use Rattle.vital_stim.specs.declared.fault.StimWhy.TheVariants.{Line};

use crate::digits::number_at;
use crate::fault::StimWhy;
use crate::fields::{Fields, after_blanks};
use crate::port_form::is_port;
use vital_base::{Time, TimeUnit};
use vital_logic::{Level, from_byte};

/// What one line says: from a time on, a port has a value.
#[derive(Clone, Copy)]
pub struct Entry<'a> {
    pub time: Time,
    /// The port as the line spells it, which capitals may be part of. Whether it has the form of a port is not tested yet.
    pub port: &'a [u8],
    pub value: Level,
}

/// What a line says that stands after others, the latest time of which is given, or the first test that it fails. The
/// form of the port is left to be tested where no other test fails.
pub fn entry_after<'a>(latest: Time, line: &'a [u8]) -> Result<Entry<'a>, StimWhy>
    ensures { stimulus_result result ≡ stimulus_after latest (fields_of line.now) }
{
    let entry = entry_of(line)?;
    if entry.time < latest {
        return Err(first_fault(entry.port, StimWhy::Falls));
    }
    Ok(entry)
}

fn entry_of<'a>(line: &'a [u8]) -> Result<Entry<'a>, StimWhy>
    ensures { stimulus_result result ≡ stimulus_of (fields_of line.now) }
{
    match number_at(after_blanks(line)) {
        Some((number, rest)) => after_number(number, rest),
        None => Err(StimWhy::Line),
    }
}

/// What a line says that begins with digits for this number, and goes on with the rest.
fn after_number<'a>(number: u64, rest: &'a [u8]) -> Result<Entry<'a>, StimWhy>
    ensures { (digits : List ℕ) → number_of digits ≡ Some number
        → stimulus_result result ≡ stimulus_of (digits ∷ fields_of rest.now) }
{
    let mut fields = Fields::new(rest);
    match (fields.next(), fields.next(), fields.next(), fields.next()) {
        (Some(letters), Some(port), Some(level), None) => {
            from_fields(number, letters, port, level)
        }
        _ => Err(StimWhy::Line),
    }
}

fn from_fields<'a>(
    number: u64,
    letters: &[u8],
    port: &'a [u8],
    level: &[u8],
) -> Result<Entry<'a>, StimWhy>
    ensures { (digits : List ℕ) → number_of digits ≡ Some number
        → stimulus_result result ≡ stimulus_of (digits ∷ letters.now ∷ port.now ∷ level.now ∷ []) }
{
    let unit = match TimeUnit::named(letters) {
        Some(unit) => unit,
        None => return Err(first_fault(port, StimWhy::Unit)),
    };
    let time = match unit.time(number) {
        Some(time) => time,
        None => return Err(first_fault(port, StimWhy::Large)),
    };
    let value = match value_named(level) {
        Some(value) => value,
        None => return Err(first_fault(port, StimWhy::Value)),
    };
    Ok(Entry { time, port, value })
}

/// The first test that a line fails, where it fails this one: the form of its port is an earlier test.
fn first_fault(port: &[u8], why: StimWhy) -> StimWhy
    ensures { result ≡ if is_port port.now then why else Line }
{
    if is_port(port) { why } else { StimWhy::Line }
}

/// The level that one byte writes.
fn value_named(bytes: &[u8]) -> Option<Level>
    ensures { result ≡ value_named bytes.now }
{
    match bytes {
        [byte] => from_byte(*byte),
        _ => None,
    }
}
