//! The limits that declarations, generics and ports pass with all that they hold.

ghost use Rattle.std.specs.Prelude.{◌≡◌, ◌++◌, OnOk};
ghost use Rattle.vital_limits.specs.WithinLimits.{limits_within, limits_within_all};
ghost use Rattle.vital_nodes.specs.Nodes.{Declaration, Interface, declarations, expression_if_there, interfaces, parts_of_alias, parts_of_decl, parts_of_iface, parts_of_object, parts_of_subtype, range_if_there, subtype_if_there};

use crate::node_limits::put_of_declaration;
use crate::passed::PassedLimit;
use crate::within_expressions::{put_within_expr, put_within_name, put_within_range};
use std::alloc::AllocError;
use vital_names::LibraryNames;
use vital_nodes::{Alias, Decl, Expr, Iface, Object, Range, Subtype, walked_in_preorder};

/// Puts the limits of an expression that may be there at the end.
pub fn put_within_value(
    limits: &mut Vec<PassedLimit>,
    value: &Option<Expr>,
) -> Result<(), AllocError>
    ensures { OnOk result (limits.new.items ≡ limits.old.items ++ limits_within_all (expression_if_there value.now)) }
{
    match value {
        Some(value) => put_within_expr(limits, value),
        None => Ok(()),
    }
}

/// Puts the limits of the bounds behind `range` at the end, if they are there.
fn put_within_bounds(
    limits: &mut Vec<PassedLimit>,
    bounds: &Option<Range>,
) -> Result<(), AllocError>
    ensures { OnOk result (limits.new.items ≡ limits.old.items ++ limits_within_all (range_if_there bounds.now)) }
{
    match bounds {
        Some(bounds) => put_within_range(limits, bounds),
        None => Ok(()),
    }
}

/// Puts the limits of a subtype at the end.
fn put_within_subtype(limits: &mut Vec<PassedLimit>, subtype: &Subtype) -> Result<(), AllocError>
    ensures { OnOk result (limits.new.items ≡ limits.old.items ++ limits_within_all (parts_of_subtype subtype.now)) }
{
    put_within_name(limits, &subtype.name)?;
    put_within_bounds(limits, &subtype.range)
}

/// Puts the limits of a subtype and of a value behind it at the end.
fn put_within_shared(
    limits: &mut Vec<PassedLimit>,
    subtype: &Subtype,
    value: &Option<Expr>,
) -> Result<(), AllocError>
    ensures { OnOk result (limits.new.items ≡ limits.old.items ++ limits_within_all (parts_of_subtype subtype.now ++ expression_if_there value.now)) }
{
    put_within_subtype(limits, subtype)?;
    put_within_value(limits, value)
}

/// Puts the limits of generics or ports and of all that they hold at the end.
pub fn put_within_ifaces(limits: &mut Vec<PassedLimit>, ifaces: &[Iface]) -> Result<(), AllocError>
    ensures { OnOk result (limits.new.items ≡ limits.old.items ++ limits_within_all (interfaces ifaces.now)) }
{
    for iface in ifaces {
        put_within_iface(limits, iface)?;
    }
    Ok(())
}

/// Puts the limits of a generic or a port and of all that it holds at the end. It passes none itself.
fn put_within_iface(limits: &mut Vec<PassedLimit>, iface: &Iface) -> Result<(), AllocError>
    ensures { OnOk result (limits.new.items ≡ limits.old.items ++ limits_within (Interface iface.now)) }
{
    walked_in_preorder();
    put_in_iface(limits, iface)
}

/// Puts the limits of the parts of a generic or a port at the end.
fn put_in_iface(limits: &mut Vec<PassedLimit>, iface: &Iface) -> Result<(), AllocError>
    ensures { OnOk result (limits.new.items ≡ limits.old.items ++ limits_within_all (parts_of_iface iface.now)) }
{
    if !iface.is_last {
        return Ok(());
    }
    let parts = iface.parts.get();
    put_within_shared(limits, &parts.subtype, &parts.default)
}

/// Puts the limits of declarations and of all that they hold at the end.
pub fn put_within_decls(
    limits: &mut Vec<PassedLimit>,
    library: &LibraryNames<'_>,
    decls: &[Decl],
) -> Result<(), AllocError>
    ensures { OnOk result (limits.new.items ≡ limits.old.items ++ limits_within_all (declarations decls.now)) }
{
    for decl in decls {
        put_within_decl(limits, library, decl)?;
    }
    Ok(())
}

/// Puts the limits of a declaration and of all that it holds at the end.
fn put_within_decl(
    limits: &mut Vec<PassedLimit>,
    library: &LibraryNames<'_>,
    decl: &Decl,
) -> Result<(), AllocError>
    ensures { OnOk result (limits.new.items ≡ limits.old.items ++ limits_within (Declaration decl.now)) }
{
    walked_in_preorder();
    put_of_declaration(limits, library, decl)?;
    put_in_decl(limits, decl)
}

/// Puts the limits of the parts of a declaration at the end.
fn put_in_decl(limits: &mut Vec<PassedLimit>, decl: &Decl) -> Result<(), AllocError>
    ensures { OnOk result (limits.new.items ≡ limits.old.items ++ limits_within_all (parts_of_decl decl.now)) }
{
    match decl {
        Decl::Attribute(_, name) => put_within_name(limits, name),
        Decl::Specification(specification) => put_within_expr(limits, &specification.value),
        Decl::Object(object) => put_in_object(limits, object),
        Decl::Alias(alias) => put_in_alias(limits, alias),
        Decl::Component(component) => {
            put_within_ifaces(limits, component.generics.as_slice())?;
            put_within_ifaces(limits, component.ports.as_slice())
        }
    }
}

/// Puts the limits of the parts of an object at the end.
fn put_in_object(limits: &mut Vec<PassedLimit>, object: &Object) -> Result<(), AllocError>
    ensures { OnOk result (limits.new.items ≡ limits.old.items ++ limits_within_all (parts_of_object object.now)) }
{
    if !object.is_last {
        return Ok(());
    }
    let parts = object.parts.get();
    put_within_shared(limits, &parts.subtype, &parts.value)
}

/// Puts the limits of the parts of an alias at the end.
fn put_in_alias(limits: &mut Vec<PassedLimit>, alias: &Alias) -> Result<(), AllocError>
    ensures { OnOk result (limits.new.items ≡ limits.old.items ++ limits_within_all (parts_of_alias alias.now)) }
{
    put_within_optional_subtype(limits, &alias.subtype)?;
    put_within_name(limits, &alias.target)
}

/// Puts the limits of a subtype that may be there at the end.
fn put_within_optional_subtype(
    limits: &mut Vec<PassedLimit>,
    subtype: &Option<Subtype>,
) -> Result<(), AllocError>
    ensures { OnOk result (limits.new.items ≡ limits.old.items ++ limits_within_all (subtype_if_there subtype.now)) }
{
    match subtype {
        Some(subtype) => put_within_subtype(limits, subtype),
        None => Ok(()),
    }
}
