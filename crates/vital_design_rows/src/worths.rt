//! What the defaults of ports are worth, as lines.

ghost use Rattle.std.specs.Option.{option_copied};
ghost use Rattle.std.specs.Prelude.{◌≡◌, true, All, IfSome};
ghost use Rattle.vital_as_read.specs.Libraries.{IsCellOfLibrary, IsFromText};
ghost use Rattle.vital_typed_cells.specs.SoundDeclarations.{is_sound_port, names_in_packages};

use super::faults::put_bytes;
use super::library::Prepared;
use super::words::value;
use std::alloc::{AllocError, Global};
use vital_library::Library;
use vital_logic::to_byte;
use vital_nodes::{Arch, Entity};
use vital_objects::Port;
use vital_typed_cells::{
    Checked, PackageLevels, TypedPackages, check_cell, level_of, levels_of_packages,
};

/// The entity of a name with its first architecture, if it has one.
fn cell_named<'a>(library: &'a Library, name: &str) -> Option<(&'a Entity, Option<&'a Arch>)>
    ensures { IfSome result (λ cell. IsCellOfLibrary (record { files = library.now; entity = cell.0.now; arch = option_copied cell.1 })) }
{
    let number = library.entity_named(name.as_bytes())?;
    let arch = if library.arch_count(number) == 0 {
        None
    } else {
        Some(library.arch(number, 0))
    };
    Some((library.entity(number), arch))
}

/// Puts a port with the level that its default is worth.
fn put_port(
    alloc: Global,
    packages: &PackageLevels<'_>,
    port: &Port,
    text: &mut String,
) -> Result<(), AllocError>
    requires { is_sound_port (names_in_packages packages.now) port.now ≡ true }
{
    put_bytes(text, port.name.as_slice())?;
    match &port.default {
        Some(tree) => {
            let level = level_of(alloc, packages, tree.get())?;
            write!(text, " {}\n", char::from(to_byte(level)))
        }
        None => text.push_str(" none\n"),
    }
}

/// Puts the ports of a cell, a line each.
fn put_ports(
    alloc: Global,
    packages: &PackageLevels<'_>,
    ports: &[Port],
    text: &mut String,
) -> Result<(), AllocError>
    requires { All (λ p. is_sound_port (names_in_packages packages.now) p ≡ true) ports.now }
{
    for port in ports {
        put_port(alloc, packages, port, text)?;
    }
    Ok(())
}

/// Puts the ports of a cell that was checked.
fn put_checked(alloc: Global, checked: &Checked, text: &mut String) -> Result<(), AllocError> {
    let cell = checked.cell();
    let packages = levels_of_packages(alloc, cell.packages.get().as_slice())?;
    put_ports(alloc, &packages, cell.ports.as_slice(), text)
}

/// Puts the ports of the cell of the top, each with the level that its default is worth.
pub fn put_worths(alloc: Global, of: &Prepared<'_>, text: &mut String) -> Result<(), AllocError>
    requires read { All IsFromText of.now.library.now }
    requires packages { of.now.packages.now ≡ of.now.library.now }
{
    let Some((entity, arch)) = cell_named(of.library, value(of.words, "top=")) else {
        return text.push_str("no-top\n");
    };
    let typed = TypedPackages::new(alloc, of.packages)?;
    match check_cell(alloc, &typed, entity, arch) {
        Ok(checked) => put_checked(alloc, &checked, text),
        Err(_) => text.push_str("not-level1\n"),
    }
}
