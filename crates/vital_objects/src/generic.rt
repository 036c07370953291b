//! The generics of a cell that are delays.

ghost use Rattle.std.specs.Prelude.{◌≡◌, [], ◌∷◌, ◌++◌, map, unwrap_or, IfOk, OnOk};
ghost use Rattle.std.specs.List.{filter_map};
ghost use Rattle.std.specs.Option.{option_and_then, option_to_list};
ghost use Rattle.vital_objects.specs.Generics as spec;
ghost use Rattle.vital_objects.specs.PackageValues.{known_delay as known_delay'};
ghost use Rattle.vital_operands.specs.Named.{even_delay as even_delay'};
ghost use Rattle.vital_typed_declarations.specs.Declarations.{lent_sited};

use crate::cell_reader::{CellReader, name_of};
use crate::package_value::{PackageValue, known_delay};
use std::alloc::AllocError;
use vital_base::Name;
use vital_declarations::{DeclaredType, type_of};
use vital_level0::{Parts, PortIndex, split_generic};
use vital_names::{CellUnit, LibraryNames, TypeName};
use vital_nodes::{Iface, Shared};
use vital_operands::{DelayExpr, even_delay};
use vital_timing::{Delay, DelayType};
use vital_typed_declarations::{
    SitedDeclaration, TypedValue, read_generic_default, sited_declarations,
};

/// A timing generic, whose delay an SDF file may set (IEEE 1076.4).
#[derive(Drop)]
pub struct TimingGeneric {
    pub name: Name,
    /// What its name splits into. Ports are numbered from 0, as they are declared.
    pub parts: Parts,
    /// Its default, which has as many times as its type. It is 0 for every change where none is written.
    pub default: Delay,
}

/// A generic that is a delay and whose name does not split. It keeps its default.
#[derive(Drop)]
pub struct PlainGeneric {
    pub name: Name,
    /// Its default, or 0 for every change.
    pub default: Delay,
}

/// The generics of a cell that are delays, each kind in order.
#[derive(Drop)]
pub struct Generics {
    pub timing: Vec<TimingGeneric>,
    pub plain: Vec<PlainGeneric>,
}

/// The type of a generic that is a delay.
fn delay_type(library: &LibraryNames<'_>, generic: &Iface) -> Option<DelayType>
    ensures { result ≡ spec.delay_type generic.now }
{
    match type_of(library, &generic.parts.get().subtype) {
        DeclaredType::Plain(TypeName::Delay(delay_type)) => Some(delay_type),
        _ => None,
    }
}

/// The delay that a default is, if it is one.
fn delay_in(default: Option<TypedValue>) -> Option<DelayExpr>
    ensures { result ≡ option_and_then spec.delay_in default }
{
    match default {
        Some(value) => match value {
            TypedValue::Delay(delay) => Some(delay),
            _ => None,
        },
        None => None,
    }
}

/// What a delay is worth that names nothing but constants of packages, or 0 for every change where there is none.
fn worth_of(
    known: &[Option<Shared<PackageValue>>],
    delay_type: DelayType,
    delay: Option<DelayExpr>,
) -> Delay
    ensures { result ≡ unwrap_or (option_and_then (known_delay' known.now) delay) (even_delay' delay_type 0) }
{
    let zero = even_delay(delay_type, 0);
    match delay {
        Some(delay) => known_delay(known, &delay).unwrap_or(zero),
        None => zero,
    }
}

/// The default of a generic of a type, or 0 for every change.
fn default_delay<'a>(
    reader: &CellReader<'a>,
    known: &[Option<Shared<PackageValue>>],
    delay_type: DelayType,
    generic: &SitedDeclaration<'a, Iface>,
) -> Result<Delay, AllocError>
    ensures { IfOk result (λ delay. delay ≡ spec.default_delay reader.now.names.now reader.now.faults.now known.now delay_type (lent_sited generic.now)) }
{
    let mut broken = Vec::new(reader.alloc);
    let within = reader.in_interface(generic.site);
    let value = read_generic_default(&within, generic.declaration, &mut broken)?;
    Ok(worth_of(known, delay_type, delay_in(value)))
}

impl Generics {
    /// Puts a generic of a type at the end of its kind.
    fn put_typed<'a>(
        &mut self,
        reader: &CellReader<'a>,
        index: &PortIndex<'a>,
        known: &[Option<Shared<PackageValue>>],
        delay_type: DelayType,
        generic: &SitedDeclaration<'a, Iface>,
    ) -> Result<(), AllocError>
        requires index { index.now ≡ reader.now.names.now.entity.ports }
        ensures timing { OnOk result (self.new.timing.items ≡ self.old.timing.items ++ option_to_list (spec.timing_of_type reader.now.names.now reader.now.faults.now known.now (lent_sited generic.now) delay_type)) }
        ensures plain { OnOk result (self.new.plain.items ≡ self.old.plain.items ++ option_to_list (spec.plain_of_type reader.now.names.now reader.now.faults.now known.now (lent_sited generic.now) delay_type)) }
    {
        let default = default_delay(reader, known, delay_type, generic)?;
        let identifier = &generic.declaration.identifier;
        let name = name_of(reader.alloc, identifier)?;
        match split_generic(&name, index) {
            Some(parts) => self.timing.push(TimingGeneric {
                name,
                parts,
                default,
            })?,
            None => self.plain.push(PlainGeneric { name, default })?,
        }
        Ok(())
    }

    /// Puts a generic at the end of its kind, if it is a delay.
    fn put<'a>(
        &mut self,
        reader: &CellReader<'a>,
        index: &PortIndex<'a>,
        known: &[Option<Shared<PackageValue>>],
        generic: &SitedDeclaration<'a, Iface>,
    ) -> Result<(), AllocError>
        requires index { index.now ≡ reader.now.names.now.entity.ports }
        ensures timing { OnOk result (self.new.timing.items ≡ self.old.timing.items ++ filter_map (spec.timing_generic reader.now.names.now reader.now.faults.now known.now) (lent_sited generic.now ∷ [])) }
        ensures plain { OnOk result (self.new.plain.items ≡ self.old.plain.items ++ filter_map (spec.plain_generic reader.now.names.now reader.now.faults.now known.now) (lent_sited generic.now ∷ [])) }
    {
        match delay_type(reader.names.library(), generic.declaration) {
            Some(delay_type) => self.put_typed(reader, index, known, delay_type, generic),
            None => Ok(()),
        }
    }
}

/// Those among generics at their sites.
fn generics_among<'a>(
    reader: &CellReader<'a>,
    index: &PortIndex<'a>,
    known: &[Option<Shared<PackageValue>>],
    generics: &[SitedDeclaration<'a, Iface>],
) -> Result<Generics, AllocError>
    requires index { index.now ≡ reader.now.names.now.entity.ports }
    ensures timing { IfOk result (λ found. found.timing.items ≡ filter_map (spec.timing_generic reader.now.names.now reader.now.faults.now known.now) (map lent_sited generics.now)) }
    ensures plain { IfOk result (λ found. found.plain.items ≡ filter_map (spec.plain_generic reader.now.names.now reader.now.faults.now known.now) (map lent_sited generics.now)) }
{
    let mut found = Generics {
        timing: Vec::new(reader.alloc),
        plain: Vec::new(reader.alloc),
    };
    for generic in generics {
        found.put(reader, index, known, generic)?;
    }
    Ok(found)
}

/// The generics of a cell that are delays, where the constants of packages are worth these. It takes time in proportion to them.
pub fn read_generics<'a>(
    reader: &CellReader<'a>,
    known: &[Option<Shared<PackageValue>>],
) -> Result<Generics, AllocError>
    ensures timing { IfOk result (λ found. found.timing.items ≡ spec.timing_generics reader.now.names.now reader.now.faults.now known.now) }
    ensures plain { IfOk result (λ found. found.plain.items ≡ spec.plain_generics reader.now.names.now reader.now.faults.now known.now) }
{
    let entity = reader.names.entity();
    let index = PortIndex::new(reader.alloc, entity)?;
    let generics = entity.generics.as_slice();
    let sited = sited_declarations(reader.alloc, CellUnit::Entity, None, generics)?;
    generics_among(reader, &index, known, &sited)
}
