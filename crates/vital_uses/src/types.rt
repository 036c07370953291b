//! The names of types in a cell.

ghost use Rattle.std.specs.Prelude.{◌≡◌, [], ◌++◌, map, OnOk};
ghost use Rattle.std.specs.List.{cons_option, filter_map, flat_map};
ghost use Rattle.std.specs.Option.{option_copied};
ghost use Rattle.vital_uses.specs.Nodes.{types_outside};
ghost use Rattle.vital_uses.specs.Parts as parts;

use crate::parts::{type_of_decl, type_of_iface};
use std::alloc::AllocError;
use vital_nodes::{Conc, Decl, Iface, Reference};

/// Puts the names of the types of generics or ports at the end.
pub fn put_interface_types<'a>(
    types: &mut Vec<&'a Reference>,
    ifaces: &'a [Iface],
) -> Result<(), AllocError>
    ensures { OnOk result (map (λ r. r.now) types.new.items ≡ map (λ r. r.now) types.old.items ++ filter_map parts.type_of_iface ifaces.now) }
{
    for iface in ifaces {
        put_if_there(types, type_of_iface(iface))?;
    }
    Ok(())
}

/// Puts the names of the types of objects and aliases at the end.
pub fn put_declared_types<'a>(
    types: &mut Vec<&'a Reference>,
    declarations: &'a [Decl],
) -> Result<(), AllocError>
    ensures { OnOk result (map (λ r. r.now) types.new.items ≡ map (λ r. r.now) types.old.items ++ filter_map parts.type_of_decl declarations.now) }
{
    for declaration in declarations {
        put_if_there(types, type_of_decl(declaration))?;
    }
    Ok(())
}

/// Puts a name at the end if it is there.
fn put_if_there<'a>(
    types: &mut Vec<&'a Reference>,
    name: Option<&'a Reference>,
) -> Result<(), AllocError>
    ensures { OnOk result (map (λ r. r.now) types.new.items ≡ map (λ r. r.now) types.old.items ++ cons_option (option_copied name.entry) []) }
{
    if let Some(name) = name {
        types.push(name)?;
    }
    Ok(())
}

/// Puts the names of types in processes and blocks at the end.
pub fn put_types_outside<'a>(
    types: &mut Vec<&'a Reference>,
    statements: &[&'a Conc],
) -> Result<(), AllocError>
    ensures { OnOk result (map (λ r. r.now) types.new.items ≡ map (λ r. r.now) types.old.items ++ flat_map types_outside (map (λ c. c.now) statements.now)) }
{
    for conc in statements {
        put_types_of(types, conc)?;
    }
    Ok(())
}

/// Puts the names of types in a process or a block at the end.
fn put_types_of<'a>(types: &mut Vec<&'a Reference>, conc: &'a Conc) -> Result<(), AllocError>
    ensures { OnOk result (map (λ r. r.now) types.new.items ≡ map (λ r. r.now) types.old.items ++ types_outside conc.now) }
{
    match conc {
        Conc::Process(_, _, process) => {
            put_declared_types(types, process.declarations.as_slice())
        }
        Conc::Block(_, _, block) => put_declared_types(types, block.declarations.as_slice()),
        _ => Ok(()),
    }
}
