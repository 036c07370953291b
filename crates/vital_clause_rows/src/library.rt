//! The library of a row, and the cell in it.

ghost use Rattle.std.specs.Option.{option_copied};
ghost use Rattle.std.specs.Prelude.{◌≡◌, All, IfOk, IfSome};
ghost use Rattle.vital_as_read.specs.Libraries.{IsCellOfLibrary, IsFromText};
ghost use Rattle.vital_grammar.specs.Grammar.{grammar};

use std::alloc::Global;
use vital_base::List;
use vital_library::{Library, gather};
use vital_ll::Rules;
use vital_nodes::{Arch, Entity};
use vital_row_files::GivenFile;
use vital_vhdl::{Role, UnitError, Units, read_units, vhdl_rules};

/// The bytes of the file of a name; a row without it has an empty one.
fn bytes_of<'a>(files: &'a [GivenFile], name: &str) -> &'a [u8] {
    match files.iter().find(|file| file.name.as_str() == name) {
        Some(file) => file.bytes.as_slice(),
        None => &[],
    }
}

/// A text read as the file of a number.
fn read(alloc: Global, rules: &Rules, file: u32, text: &[u8]) -> Result<Units, UnitError>
    requires { rules.now ≡ grammar }
    ensures { IfOk result IsFromText }
{
    if text.len() > 100_000 {
        return Err(UnitError::NoMemory);
    }
    read_units(alloc, rules, file, Role::Lib, text, 100_000)
}

/// The library of the file `package` and of the file `cell` behind it.
pub fn library_of(alloc: Global, files: &[GivenFile]) -> Result<Library, UnitError>
    ensures { IfOk result (All IsFromText) }
{
    let rules = vhdl_rules(alloc)?;
    let mut units = Vec::new(alloc);
    units.push(read(alloc, &rules, 0, bytes_of(files, "package"))?)?;
    units.push(read(alloc, &rules, 1, bytes_of(files, "cell"))?)?;
    match gather(alloc, List::new(units)) {
        Ok(library) => Ok(library),
        Err(_) => Err(UnitError::NoMemory),
    }
}

/// The first entity of a library with its first architecture, if it has one.
pub fn first_cell(library: &Library) -> Option<(&Entity, Option<&Arch>)>
    ensures { IfSome result (λ cell. IsCellOfLibrary (record { files = library.now; entity = cell.0.now; arch = option_copied cell.1 })) }
{
    if library.entity_count() == 0 {
        return None;
    }
    let arch = if library.arch_count(0) == 0 {
        None
    } else {
        Some(library.arch(0, 0))
    };
    Some((library.entity(0), arch))
}

/// The first architecture of the first entity of a library.
pub fn first_arch(library: &Library) -> Option<&Arch> {
    match first_cell(library) {
        Some((_, arch)) => arch,
        None => None,
    }
}
