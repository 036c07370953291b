//! The ports of a cell.

ghost use Rattle.std.specs.Prelude.{◌≡◌, map, reverse, if◌then◌else◌, IfOk};
ghost use Rattle.std.specs.Option.{option_and_then};
ghost use Rattle.vital_objects.specs.Ports as spec;
ghost use Rattle.vital_objects.specs.Together.{beside_lasts, is_last_interface};
ghost use Rattle.vital_declarations.specs.Types as types;
ghost use Rattle.vital_typed_declarations.specs.Declarations.{lent_sited};

use crate::cell_reader::{CellReader, name_of};
use crate::together::{first_owner, next_owner};
use sqlite_items::Items;
use std::alloc::AllocError;
use vital_base::{Name, Place};
use vital_declarations::{DeclaredType, type_of};
use vital_names::{CellUnit, TypeName};
use vital_nodes::{Iface, Mode, Shared};
use vital_operands::LevelExpr;
use vital_typed_declarations::{
    SitedDeclaration, TypedValue, asked_of_port, read_value_if_given, sited_declarations,
};

/// One bit of the ports of a cell.
#[derive(Drop)]
pub struct Port {
    /// The name that is printed for it. It holds no underscore.
    pub name: Name,
    /// The place of its identifier.
    pub place: Place,
    /// In, out, inout or buffer.
    pub mode: Mode,
    /// Whether its type is STD_LOGIC, which is resolved, and not STD_ULOGIC (IEEE 1164).
    pub is_resolved: bool,
    /// Its default, in which nothing is named but constants of packages. Without one it begins as 'U'. Ports that are declared together
    /// share it.
    pub default: Option<Shared<LevelExpr>>,
}

/// Whether a type is resolved.
pub fn is_resolved(declared: DeclaredType<'_>) -> bool
    ensures { result ≡ spec.is_resolved (types.lent declared.entry) }
{
    matches!(declared, DeclaredType::Plain(TypeName::StdLogic))
}

/// The level that a default is, if it is one.
pub fn level_in(default: Option<TypedValue>) -> Option<LevelExpr>
    ensures { result ≡ option_and_then spec.level_in default }
{
    match default {
        Some(value) => match value {
            TypedValue::Level(level) => Some(level),
            _ => None,
        },
        None => None,
    }
}

/// The default of the ports that are declared together, the last of which this is.
fn default_behind<'a>(
    reader: &CellReader<'a>,
    port: &SitedDeclaration<'a, Iface>,
) -> Result<Option<Shared<LevelExpr>>, AllocError>
    ensures { IfOk result (λ level. level ≡ spec.default_behind reader.now.names.now reader.now.faults.now (lent_sited port.now)) }
{
    let mut broken = Vec::new(reader.alloc);
    let within = reader.in_interface(port.site);
    let asked = asked_of_port(reader.names.library(), port.declaration);
    let default = &port.declaration.parts.get().default;
    let value = read_value_if_given(&within, asked, default, &mut broken)?;
    first_owner(reader.alloc, level_in(value))
}

/// The default of the ports that are declared together with this one. It is read behind the last of them; for one before the last it is
/// that behind the next one.
fn default_from<'a>(
    reader: &CellReader<'a>,
    port: &SitedDeclaration<'a, Iface>,
    next: Option<Shared<LevelExpr>>,
) -> Result<Option<Shared<LevelExpr>>, AllocError>
    ensures { IfOk result (λ level. level ≡ (if is_last_interface (lent_sited port.now) then spec.default_behind reader.now.names.now reader.now.faults.now (lent_sited port.now) else next)) }
{
    if port.declaration.is_last {
        default_behind(reader, port)
    } else {
        Ok(next)
    }
}

/// A port with its default.
fn port_with<'a>(
    reader: &CellReader<'a>,
    port: &Iface,
    default: &Option<Shared<LevelExpr>>,
) -> Result<Port, AllocError>
    ensures { IfOk result (λ found. found ≡ spec.port_with default.now port.now) }
{
    let Iface {
        identifier,
        parts,
        ..
    } = port;
    let parts = parts.get();
    Ok(Port {
        name: name_of(reader.alloc, identifier)?,
        place: identifier.place,
        mode: parts.mode,
        is_resolved: is_resolved(type_of(reader.names.library(), &parts.subtype)),
        default: next_owner(default)?,
    })
}

/// Ports at their sites, from the last to the first.
fn ports_backwards<'a>(
    reader: &CellReader<'a>,
    ports: &[SitedDeclaration<'a, Iface>],
) -> Result<Vec<Port>, AllocError>
    ensures { IfOk result (λ found. found.items ≡ reverse (map (spec.port reader.now.names.now reader.now.faults.now) (beside_lasts is_last_interface (map lent_sited ports.now)))) }
{
    let mut found = Vec::new(reader.alloc);
    let mut default = None;
    for port in ports.iter().rev() {
        default = default_from(reader, port, default)?;
        found.push(port_with(reader, port.declaration, &default)?)?;
    }
    Ok(found)
}

/// The bits of the ports of a cell, in order. It takes time in proportion to them.
pub fn read_ports<'a>(reader: &CellReader<'a>) -> Result<Items<Port>, AllocError>
    ensures { IfOk result (λ ports. ports ≡ spec.ports reader.now.names.now reader.now.faults.now) }
{
    let ports = reader.names.entity().ports.as_slice();
    let sited = sited_declarations(reader.alloc, CellUnit::Entity, None, ports)?;
    let mut found = ports_backwards(reader, &sited)?;
    found.reverse();
    Ok(Items::from_vec(found))
}
