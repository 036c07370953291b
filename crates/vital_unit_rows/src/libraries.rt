//! What a library tells: its entities with their architectures, the constants of its packages, and what names mean in it.

ghost use Rattle.std.specs.Prelude.{◌≡◌, ◌<◌, length};
ghost use Rattle.vital_grammar.specs.Grammar.{grammar};
ghost use Rattle.vital_library.specs.Units.{entities};

use super::reading::{ROOM, read};
use super::words::{Lines, put_bytes, put_named, role_word};
use std::alloc::{AllocError, Global};
use vital_base::{List, Place};
use vital_library::{Library, LibraryError, gather};
use vital_ll::Rules;
use vital_row_files::GivenFile;
use vital_vhdl::{Role, UnitError, Units, vhdl_rules};

/// The units of files: the first is a library file, and the others are netlist files. None where one is refused.
fn units_of(alloc: Global, rules: &Rules, files: &[GivenFile]) -> Result<Vec<Units>, UnitError>
    requires { rules.now ≡ grammar }
{
    let (mut all, mut number) = (Vec::new(alloc), 0u32);
    for file in files {
        let role = if number == 0 { Role::Lib } else { Role::Net };
        all.push(read(alloc, rules, number, role, file, ROOM)?)?;
        number = number.wrapping_add(1);
    }
    Ok(all)
}

/// Puts an entity: its name, its role, and the names of its architectures.
fn put_entity(out: Lines<'_>, library: &Library, entity: u32) -> Result<(), AllocError>
    requires { entity < length (entities library.now) }
{
    put_named(
        out,
        "entity",
        library.entity(entity).identifier.name.as_slice(),
    )?;
    write!(out, " {}", role_word(library.role(entity)))?;
    for arch in 0..library.arch_count(entity) {
        let arch = library.arch(entity, arch);
        put_named(out, "", arch.identifier.name.as_slice())?;
    }
    out.push_str("\n")
}

fn put_constants(alloc: Global, out: Lines<'_>, library: &Library) -> Result<(), AllocError> {
    for constant in library.constants(alloc)? {
        let Place { file, line, column } = constant.identifier.place;
        put_named(out, "constant", constant.identifier.name.as_slice())?;
        write!(out, " {file} {line} {column}\n")?;
    }
    Ok(())
}

/// Puts what a name means: an entity or a constant, by its number, or nothing.
fn put_meaning(out: Lines<'_>, library: &Library, name: &[u8]) -> Result<(), AllocError> {
    put_bytes(out, name)?;
    if let Some(number) = library.entity_named(name) {
        return write!(out, " is entity {number}\n");
    }
    match library.constant_named(name) {
        Some(number) => write!(out, " is constant {number}\n"),
        None => out.push_str(" is nothing\n"),
    }
}

fn put_library(
    alloc: Global,
    out: Lines<'_>,
    library: &Library,
    names: &[String],
) -> Result<(), AllocError> {
    write!(out, "files {}\n", library.files().len())?;
    for entity in 0..library.entity_count() {
        put_entity(out, library, entity)?;
    }
    put_constants(alloc, out, library)?;
    for name in names {
        put_meaning(out, library, name.as_bytes())?;
    }
    Ok(())
}

/// A line for each entity of a library of files, for each constant of its packages, and for each word: what it names.
pub fn library_lines(
    alloc: Global,
    words: &[String],
    files: &[GivenFile],
) -> Result<String, AllocError> {
    let mut out = String::new(alloc);
    let rules = vhdl_rules(alloc)?;
    let Ok(units) = units_of(alloc, &rules, files) else {
        return Ok(out);
    };
    if let Ok(library) = gather(alloc, List::new(units)) {
        put_library(alloc, &mut out, &library, words)?;
    }
    Ok(out)
}
