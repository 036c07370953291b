//! Reading a file of a row.

ghost use Rattle.std.specs.Prelude.{◌≡◌};
ghost use Rattle.vital_grammar.specs.Grammar.{grammar};

use std::alloc::Global;
use vital_base::LONGEST_FILE;
use vital_ll::Rules;
use vital_row_files::GivenFile;
use vital_vhdl::{Role, UnitError, Units, read_units};

/// How many tokens a text may have where a row says nothing of it.
pub const ROOM: u32 = 100_000;

/// A file of a row, read as the file of a number. One that is longer than any may be counts as want of memory.
pub fn read(
    alloc: Global,
    rules: &Rules,
    number: u32,
    role: Role,
    file: &GivenFile,
    room: u32,
) -> Result<Units, UnitError>
    requires { rules.now ≡ grammar }
{
    let text = file.bytes.as_slice();
    if text.len() > LONGEST_FILE {
        return Err(UnitError::NoMemory);
    }
    read_units(alloc, rules, number, role, text, room)
}
