//! The internal signals of a cell.

ghost use Rattle.std.specs.Prelude.{◌≡◌, [], ◌∷◌, ◌++◌, IfOk, OnOk};
ghost use Rattle.std.specs.List.{filter_map};
ghost use Rattle.std.specs.Option.{option_and_then};
ghost use Rattle.vital_objects.specs.Signals as spec;
ghost use Rattle.vital_declarations.specs.Constants.{character as character'};
ghost use Rattle.vital_operands.specs.Items.{printed_level as printed_level'};

use crate::cell_reader::name_of;
use crate::port::is_resolved;
use sqlite_items::Items;
use std::alloc::{AllocError, Global};
use vital_base::{Name, Place};
use vital_declarations::{character, type_of};
use vital_logic::Level;
use vital_names::{CellNames, LibraryNames};
use vital_nodes::{Decl, Object, ObjectClass};
use vital_operands::printed_level;

/// One bit of the internal signals of a cell.
#[derive(Drop)]
pub struct Signal {
    /// The name that is printed for it behind the path of its instance.
    pub name: Name,
    /// The place of its identifier.
    pub place: Place,
    /// Whether its type is STD_LOGIC, which is resolved, and not STD_ULOGIC (IEEE 1164).
    pub is_resolved: bool,
    /// Its default, or 'U'.
    pub initial: Level,
}

/// What the architecture of a cell declares itself, if it has one.
pub fn own_declarations<'a>(names: &CellNames<'a>) -> &'a [Decl]
    ensures { result.now ≡ spec.declarations names.now.arch }
{
    match names.arch() {
        Some(arch) => arch.declarations.as_slice(),
        None => &[],
    }
}

/// The level of the character literal that is the default of a signal, if it has one.
fn literal_level(object: &Object) -> Option<Level>
    ensures { result ≡ option_and_then printed_level' (option_and_then character' object.now.parts.value) }
{
    match &object.parts.get().value {
        Some(value) => printed_level(character(value)?),
        None => None,
    }
}

/// A signal.
fn read_signal(
    alloc: Global,
    library: &LibraryNames<'_>,
    object: &Object,
) -> Result<Signal, AllocError>
    ensures { IfOk result (λ signal. signal ≡ spec.signal_of object.now) }
{
    Ok(Signal {
        name: name_of(alloc, &object.identifier)?,
        place: object.identifier.place,
        is_resolved: is_resolved(type_of(library, &object.parts.get().subtype)),
        initial: literal_level(object).unwrap_or(Level::U),
    })
}

/// Puts the signal that a declaration declares at the end, if it declares one.
fn put_signal(
    alloc: Global,
    library: &LibraryNames<'_>,
    declaration: &Decl,
    signals: &mut Vec<Signal>,
) -> Result<(), AllocError>
    ensures { OnOk result (signals.new.items ≡ signals.old.items ++ filter_map spec.signal (declaration.now ∷ [])) }
{
    match declaration {
        Decl::Object(object) => match object.class {
            ObjectClass::Signal => Ok(signals.push(read_signal(alloc, library, object)?)?),
            ObjectClass::Constant | ObjectClass::Variable => Ok(()),
        },
        _ => Ok(()),
    }
}

/// The bits of the internal signals of a cell, in order. It takes time in proportion to its declarations.
pub fn read_signals(alloc: Global, names: &CellNames<'_>) -> Result<Items<Signal>, AllocError>
    ensures { IfOk result (λ signals. signals ≡ spec.signals names.now) }
{
    let mut signals = Vec::new(alloc);
    for declaration in own_declarations(names) {
        put_signal(alloc, names.library(), declaration, &mut signals)?;
    }
    Ok(Items::from_vec(signals))
}
