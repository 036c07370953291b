//! The nodes of a cell that stand apart: those of attributes and components, in which it is not asked what names mean, and those of the
//! declarations and statements of the entity itself.

ghost use Rattle.std.specs.Prelude.{◌≡◌, [], ◌++◌, map, IfOk, OnOk};
ghost use Rattle.std.specs.List.{flat_map};
ghost use Rattle.std.specs.Option.{option_copied};
ghost use Rattle.vital_uses.specs.Apart as spec;
ghost use Rattle.vital_uses.specs.Asked.{asked, lent_asked};
ghost use Rattle.vital_uses.specs.Sited.{lent_node};

use crate::asked::{Asked, asked_at_nodes};
use crate::cell_uses::declarations_of;
use crate::nodes::put_nodes_in;
use crate::parts::{ApartParts, AskedParts};
use crate::sited::{SitedNode, put_seen_from};
use crate::statements::CellStatements;
use std::alloc::{AllocError, Global};
use vital_names::{CellNames, CellUnit, ProcessNames, Site};
use vital_nodes::{Conc, Decl, Entity, HasPlace, Node};

/// Those nodes of a cell, of which these are the statements, each at its site.
pub fn nodes_apart<'a>(
    alloc: Global,
    names: &'a CellNames<'a>,
    statements: &'a CellStatements<'a>,
) -> Result<Vec<SitedNode<'a>>, AllocError>
    requires { statements.now ≡ names.now.arch }
    ensures { IfOk result (λ nodes. map lent_node nodes.items ≡ spec.nodes_apart names.now) }
{
    let mut nodes: Vec<SitedNode<'a>> = Vec::new(alloc);
    put_nodes_in_entity(alloc, &mut nodes, names.entity())?;
    put_apart(alloc, &mut nodes, None, declarations_of(names.arch()))?;
    put_apart_outside(alloc, &mut nodes, statements.statements())?;
    put_apart_in_processes(alloc, &mut nodes, statements.processes())?;
    Ok(nodes)
}

/// What is asked at those nodes, in order.
pub fn asked_apart<'a>(
    alloc: Global,
    names: &'a CellNames<'a>,
    statements: &'a CellStatements<'a>,
) -> Result<Vec<Asked<'a>>, AllocError>
    requires { statements.now ≡ names.now.arch }
    ensures { IfOk result (λ all. map lent_asked all.items ≡ asked names.now (spec.nodes_apart names.now)) }
{
    let nodes = nodes_apart(alloc, names, statements)?;
    asked_at_nodes(alloc, names, &nodes)
}

/// Puts the nodes of the declarations and statements of an entity itself at the end.
fn put_nodes_in_entity<'a>(
    alloc: Global,
    nodes: &mut Vec<SitedNode<'a>>,
    entity: &'a Entity,
) -> Result<(), AllocError>
    ensures { OnOk result (map lent_node nodes.new.items ≡ map lent_node nodes.old.items ++ spec.nodes_in_entity entity.now) }
{
    let declarations = entity.declarations.as_slice();
    put_nodes_in(
        alloc,
        nodes,
        &AskedParts,
        CellUnit::Entity,
        None,
        declarations,
    )?;
    put_nodes_in(
        alloc,
        nodes,
        &ApartParts,
        CellUnit::Entity,
        None,
        declarations,
    )?;
    put_entity_statements(alloc, nodes, entity.statements.as_slice())
}

/// Puts the nodes of statements of an entity at the end.
fn put_entity_statements<'a>(
    alloc: Global,
    nodes: &mut Vec<SitedNode<'a>>,
    statements: &'a [Conc],
) -> Result<(), AllocError>
    ensures { OnOk result (map lent_node nodes.new.items ≡ map lent_node nodes.old.items ++ flat_map spec.nodes_of_entity_statement statements.now) }
{
    for conc in statements {
        put_entity_statement(alloc, nodes, conc)?;
    }
    Ok(())
}

/// Puts the nodes of a statement of an entity at the end.
fn put_entity_statement<'a>(
    alloc: Global,
    nodes: &mut Vec<SitedNode<'a>>,
    conc: &'a Conc,
) -> Result<(), AllocError>
    ensures { OnOk result (map lent_node nodes.new.items ≡ map lent_node nodes.old.items ++ spec.nodes_of_entity_statement conc.now) }
{
    let site = Site {
        unit: CellUnit::Entity,
        process: None,
        viewpoint: conc.place(),
    };
    let mut parts = Vec::new(alloc);
    parts.push(Node::Concurrent(conc))?;
    put_seen_from(alloc, nodes, site, parts)
}

/// Puts the nodes of attributes and components among declarations at the end.
fn put_apart<'a>(
    alloc: Global,
    nodes: &mut Vec<SitedNode<'a>>,
    process: Option<&'a ProcessNames<'a>>,
    declarations: &'a [Decl],
) -> Result<(), AllocError>
    ensures { OnOk result (map lent_node nodes.new.items ≡ map lent_node nodes.old.items ++ spec.apart_in (option_copied process.entry) declarations.now) }
{
    put_nodes_in(
        alloc,
        nodes,
        &ApartParts,
        CellUnit::Architecture,
        process,
        declarations,
    )
}

/// Puts those in blocks at the end.
fn put_apart_outside<'a>(
    alloc: Global,
    nodes: &mut Vec<SitedNode<'a>>,
    statements: &[&'a Conc],
) -> Result<(), AllocError>
    ensures { OnOk result (map lent_node nodes.new.items ≡ map lent_node nodes.old.items ++ flat_map spec.apart_outside (map (λ c. c.now) statements.now)) }
{
    for conc in statements {
        put_apart_of_conc(alloc, nodes, conc)?;
    }
    Ok(())
}

/// Puts those of a block at the end.
fn put_apart_of_conc<'a>(
    alloc: Global,
    nodes: &mut Vec<SitedNode<'a>>,
    conc: &'a Conc,
) -> Result<(), AllocError>
    ensures { OnOk result (map lent_node nodes.new.items ≡ map lent_node nodes.old.items ++ spec.apart_outside conc.now) }
{
    match conc {
        Conc::Block(_, _, block) => { put_apart(alloc, nodes, None, block.declarations.as_slice()) }
        _ => Ok(()),
    }
}

/// Puts those in processes at the end.
fn put_apart_in_processes<'a>(
    alloc: Global,
    nodes: &mut Vec<SitedNode<'a>>,
    processes: &'a [ProcessNames<'a>],
) -> Result<(), AllocError>
    ensures { OnOk result (map lent_node nodes.new.items ≡ map lent_node nodes.old.items ++ flat_map spec.apart_in_process processes.now) }
{
    for process in processes {
        put_apart_in_process(alloc, nodes, process)?;
    }
    Ok(())
}

/// Puts those in a process at the end.
fn put_apart_in_process<'a>(
    alloc: Global,
    nodes: &mut Vec<SitedNode<'a>>,
    process: &'a ProcessNames<'a>,
) -> Result<(), AllocError>
    ensures { OnOk result (map lent_node nodes.new.items ≡ map lent_node nodes.old.items ++ spec.apart_in_process process.now) }
{
    let declarations = process.process().declarations.as_slice();
    put_apart(alloc, nodes, Some(process), declarations)?;
    Ok(())
}
