//! The library of the files that words name, and what is made of it.

ghost use Rattle.std.specs.Prelude.{◌≡◌, All, IfOk};
ghost use Rattle.vital_as_read.specs.Libraries.{IsFromText};
ghost use Rattle.vital_grammar.specs.Grammar.{grammar};

use super::structures::put_unit;
use super::under_tops::put_under_top;
use super::words::{LibraryView, file_of};
use super::worths::put_worths;
use std::alloc::{AllocError, Global};
use vital_base::List;
use vital_instances::NetUnits;
use vital_level1::Packages;
use vital_library::{Library, gather};
use vital_ll::Rules;
use vital_names::LibraryNames;
use vital_row_files::GivenFile;
use vital_vhdl::{Role, UnitError, Units, read_units, vhdl_rules};

/// The most tokens of a file.
const MOST_TOKENS: u32 = 4_194_304;

/// A library with what is made of it before its instances are, and the words that ask for it.
#[derive(Clone, Copy)]
pub struct Prepared<'a> {
    pub words: &'a [String],
    pub library: &'a Library,
    pub names: &'a LibraryNames<'a>,
    pub packages: &'a Packages<'a>,
    pub net_units: &'a NetUnits<'a>,
}

/// The text of the file of a name; none if there is no such file.
fn text_of<'a>(files: &'a [GivenFile], name: &str) -> &'a [u8] {
    for file in files {
        if file.name.as_str() == name {
            return file.bytes.as_slice();
        }
    }
    b""
}

/// The units of a text, as the file of a number.
fn units_of(
    alloc: Global,
    rules: &Rules,
    number: usize,
    role: Role,
    text: &[u8],
) -> Result<Units, UnitError>
    requires { rules.now ≡ grammar }
    ensures { IfOk result IsFromText }
{
    match u32::try_from(number) {
        Ok(number) if text.len() <= 16_777_216 => {
            read_units(alloc, rules, number, role, text, MOST_TOKENS)
        }
        _ => Err(UnitError::NoMemory),
    }
}

/// The units of the files that words name, in order.
fn read_files(
    alloc: Global,
    rules: &Rules,
    words: &[String],
    files: &[GivenFile],
) -> Result<List<Units>, UnitError>
    requires { rules.now ≡ grammar }
    ensures { IfOk result (All IsFromText) }
{
    let mut read = Vec::new(alloc);
    for word in words {
        if let Some((role, name)) = file_of(word.as_str()) {
            let units = units_of(alloc, rules, read.len(), role, text_of(files, name))?;
            read.push(units)?;
        }
    }
    Ok(List::new(read))
}

/// What a view shows of the library of the files that words name.
pub fn put_library(
    alloc: Global,
    view: LibraryView,
    words: &[String],
    files: &[GivenFile],
) -> Result<String, AllocError> {
    let rules = vhdl_rules(alloc)?;
    let Ok(read) = read_files(alloc, &rules, words, files) else {
        return String::from_str(alloc, "a file is refused\n");
    };
    match gather(alloc, read) {
        Ok(library) => put_named(alloc, view, words, &library),
        Err(_) => String::from_str(alloc, "the library is refused\n"),
    }
}

/// The same of a library, whose names are looked up.
fn put_named(
    alloc: Global,
    view: LibraryView,
    words: &[String],
    library: &Library,
) -> Result<String, AllocError>
    requires { All IsFromText library.now }
{
    let names = LibraryNames::new(alloc, library)?;
    put_judged(alloc, view, words, library, &names)
}

/// The same with its names, whose packages are judged.
fn put_judged<'a>(
    alloc: Global,
    view: LibraryView,
    words: &'a [String],
    library: &'a Library,
    names: &'a LibraryNames<'a>,
) -> Result<String, AllocError>
    requires read { All IsFromText library.now }
    requires names { names.now ≡ library.now }
{
    let packages = Packages::new(alloc, names)?;
    put_prepared(alloc, view, words, library, names, &packages)
}

/// The same with what the constants of its packages break and pass.
fn put_prepared<'a>(
    alloc: Global,
    view: LibraryView,
    words: &'a [String],
    library: &'a Library,
    names: &'a LibraryNames<'a>,
    packages: &'a Packages<'a>,
) -> Result<String, AllocError>
    requires read { All IsFromText library.now }
    requires packages { packages.now ≡ library.now }
{
    let net_units = NetUnits::new(alloc, library, names)?;
    let of = Prepared {
        words,
        library,
        names,
        packages,
        net_units: &net_units,
    };
    put_view(alloc, view, &of)
}

/// The same with all that is made of it.
fn put_view(alloc: Global, view: LibraryView, of: &Prepared<'_>) -> Result<String, AllocError>
    requires read { All IsFromText of.now.library.now }
    requires packages { of.now.packages.now ≡ of.now.library.now }
    requires net_units { of.now.net_units.now ≡ of.now.library.now }
{
    let mut text = String::new(alloc);
    match view {
        LibraryView::Unit(view) => put_unit(alloc, view, of, &mut text)?,
        LibraryView::Worths => put_worths(alloc, of, &mut text)?,
        LibraryView::UnderTop(view) => put_under_top(alloc, view, of, &mut text)?,
    }
    Ok(text)
}
