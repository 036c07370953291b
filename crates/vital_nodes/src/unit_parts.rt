//! The parts of nodes of every kind, and of units.

ghost use Rattle.std.specs.Prelude.{◌≡◌, ◌++◌, map, OnOk};
ghost use Rattle.vital_nodes.specs.Nodes.{parts_of, parts_of_unit};
ghost use Rattle.vital_nodes.specs.declared.unit.Unit.TheVariants as units;
ghost use Rattle.vital_nodes.specs.Seen.{seen};

use crate::declaration_parts::{put_parts_of_decl, put_parts_of_iface};
use crate::expression_parts::{put_parts_of_expr, put_parts_of_item, put_parts_of_name};
use crate::node::Node;
use crate::put::put_all;
use crate::statement_parts::{put_parts_of_conc, put_parts_of_stmt};
use crate::unit::{Arch, Entity, Unit};
use std::alloc::AllocError;

/// Puts the parts of a node at the end.
#[tactic(auto, unfolding(crate::specs::Nodes::parts_of))]
pub fn put_parts<'a>(nodes: &mut Vec<Node<'a>>, node: Node<'a>) -> Result<(), AllocError>
    ensures { OnOk result (map seen nodes.new.items ≡ map seen nodes.old.items ++ parts_of (seen node.entry)) }
{
    match node {
        Node::Declaration(decl) => put_parts_of_decl(nodes, decl),
        Node::Interface(iface) => put_parts_of_iface(nodes, iface),
        Node::Concurrent(conc) => put_parts_of_conc(nodes, conc),
        Node::Sequential(stmt) => put_parts_of_stmt(nodes, stmt),
        Node::Expression(expr) => put_parts_of_expr(nodes, expr),
        Node::Item(item) => put_parts_of_item(nodes, item),
        Node::Name(name) => put_parts_of_name(nodes, name),
    }
}

/// Puts the parts of an entity at the end.
#[tactic(auto, unfolding(crate::specs::Nodes::parts_of_unit))]
fn put_parts_of_entity<'a>(nodes: &mut Vec<Node<'a>>, entity: &'a Entity) -> Result<(), AllocError>
    ensures { OnOk result (map seen nodes.new.items ≡ map seen nodes.old.items ++ parts_of_unit (units.Entity entity.now)) }
{
    put_all(nodes, entity.generics.as_slice())?;
    put_all(nodes, entity.ports.as_slice())?;
    put_all(nodes, entity.declarations.as_slice())?;
    put_all(nodes, entity.statements.as_slice())
}

/// Puts the parts of an architecture at the end.
#[tactic(auto, unfolding(crate::specs::Nodes::parts_of_unit))]
fn put_parts_of_arch<'a>(nodes: &mut Vec<Node<'a>>, arch: &'a Arch) -> Result<(), AllocError>
    ensures { OnOk result (map seen nodes.new.items ≡ map seen nodes.old.items ++ parts_of_unit (units.Arch arch.now)) }
{
    put_all(nodes, arch.declarations.as_slice())?;
    put_all(nodes, arch.statements.as_slice())
}

/// Puts the parts of a unit at the end.
#[tactic(auto, unfolding(crate::specs::Nodes::parts_of_unit))]
pub fn put_parts_of_unit<'a>(nodes: &mut Vec<Node<'a>>, unit: &'a Unit) -> Result<(), AllocError>
    ensures { OnOk result (map seen nodes.new.items ≡ map seen nodes.old.items ++ parts_of_unit unit.now) }
{
    match unit {
        Unit::Entity(entity) => put_parts_of_entity(nodes, entity),
        Unit::Arch(arch) => put_parts_of_arch(nodes, arch),
        Unit::Pack(pack) => put_all(nodes, pack.declarations.as_slice()),
        Unit::Config(_) => Ok(()),
    }
}
