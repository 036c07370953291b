//! The fields that lines have: places, and the words for what a line says.

ghost use Rattle.std.specs.Prelude.{◌≡◌, codes, None, option_map};
ghost use Rattle.std.specs.Option.{option_copied};
ghost use Rattle.vital_report.specs.Lines.{kind_word, level_word, name_word, type_word, unit_word};

use crate::fields::{Field, Fields};
use crate::held::Held;
use crate::line::Position;
use vital_base::{Clause, Name, Sink, WriteFault};
use vital_timing_checks::CheckKind;

/// A place has three fields.
impl<'a> Fields for Position<'a> {
    ghost use Rattle.vital_report.specs.Lines.{spot, spot_fields};

    ghost listed = { λ at. spot_fields (spot at) };

    fn write<K: Sink>(&self, held: &mut Held, sink: &mut K) -> Result<(), WriteFault> {
        place(*self).write(held, sink)
    }
}

/// The fields of a place: the name of its file, its line and its column.
fn place<'a>(at: Position<'a>) -> (Field<&'a [u8]>, (Field<u64>, Field<u64>))
    ensures file { result.0.0.now ≡ at.entry.file.now }
    ensures line { result.1.0.0 ≡ at.entry.line }
    ensures column { result.1.1.0 ≡ at.entry.column }
{
    (fixed(at.file), (number(at.line), number(at.column)))
}

/// The name of an architecture, or `-` for none.
pub(crate) fn arch_text<'a>(arch: Option<&'a Name>) -> Field<&'a [u8]>
    ensures { result.0.now ≡ name_word (option_map (λ name. name.now) arch.entry) }
{
    match arch {
        Some(name) => text(name),
        None => no_name(),
    }
}

/// What stands where there is no name.
fn no_name<'a>() -> Field<&'a [u8]>
    ensures { result.0.now ≡ name_word None }
{
    fixed(b"-")
}

/// A name that there may be, or `-` for none.
pub(crate) fn name_text<'a>(name: Option<&'a [u8]>) -> Field<&'a [u8]>
    ensures { result.0.now ≡ name_word (option_copied name.entry) }
{
    match name {
        Some(name) => fixed(name),
        None => no_name(),
    }
}

/// The word for what a timing check tests.
pub(crate) fn kind_text<'a>(kind: CheckKind) -> Field<&'a [u8]>
    ensures { result.0.now ≡ kind_word kind }
{
    match kind {
        CheckKind::Setup => fixed(b"setup"),
        CheckKind::Hold => fixed(b"hold"),
        CheckKind::Recovery => fixed(b"recovery"),
        CheckKind::Removal => fixed(b"removal"),
        CheckKind::Period => fixed(b"period"),
        CheckKind::Pulse => fixed(b"pulse"),
    }
}

/// The word for an instance of a cell, or of a netlist unit.
pub(crate) fn unit_text<'a>(is_cell: bool) -> Field<&'a [u8]>
    ensures { result.0.now ≡ unit_word is_cell }
{
    if is_cell {
        fixed(b"cell")
    } else {
        fixed(b"net")
    }
}

/// The word for a cell that breaks a clause.
pub(crate) fn broken_text<'a>() -> Field<&'a [u8]>
    ensures { result.0.now ≡ codes "not-level1" }
{
    fixed(b"not-level1")
}

/// The type of a signal, by whether it is resolved.
pub(crate) fn type_text<'a>(is_resolved: bool) -> Field<&'a [u8]>
    ensures { result.0.now ≡ type_word is_resolved }
{
    if is_resolved {
        fixed(b"std_logic")
    } else {
        fixed(b"std_ulogic")
    }
}

/// The word for the level that a cell has where it breaks this clause.
pub(crate) fn level_text<'a>(clause: Clause) -> Field<&'a [u8]>
    ensures { result.0.now ≡ level_word clause }
{
    if clause.level == 0 {
        fixed(b"none")
    } else {
        fixed(b"level0")
    }
}

/// A word that is always the same, or bytes of a name.
pub(crate) fn fixed<'a>(word: &'a [u8]) -> Field<&'a [u8]>
    ensures { result.0.now ≡ word.now }
{
    Field(word)
}

/// A name.
pub(crate) fn text<'a>(name: &'a Name) -> Field<&'a [u8]>
    ensures { result.0.now ≡ name.now }
{
    Field(name.as_slice())
}

/// A line or a column.
pub(crate) fn number(number: u32) -> Field<u64>
    ensures { result.0 ≡ number }
{
    Field(u64::from(number))
}
