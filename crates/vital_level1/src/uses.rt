//! The tables that declarations use, and those that nodes do.

ghost use Rattle.std.specs.Prelude.{◌≡◌, [], ◌∷◌, ◌++◌, map, IfOk, OnOk};
ghost use Rattle.std.specs.List.{filter_map, flat_map};
ghost use Rattle.vital_expr.specs.Seen.{lent};
ghost use Rattle.vital_level1.specs.Forms as spec;
ghost use Rattle.vital_typed_declarations.specs.Declarations.{lent_sited};
ghost use Rattle.vital_table_uses.specs.TableUses.{truth_use_at as truth_use_at'};
ghost use Rattle.vital_nodes.specs.Nodes.{expression_if_there};
ghost use Rattle.vital_nodes.specs.Walk.{nodes_of_all as nodes_of_all'};
ghost use Rattle.vital_nodes.specs.Seen.{seen};

use std::alloc::{AllocError, Global};
use vital_declaration_clauses::Region;
use vital_expr::Reader;
use vital_names::{CellNames, CellUnit};
use vital_nodes::{Decl, Expr, Iface, Node, nodes_of};
use vital_operands::{Faults, Position};
use vital_table_uses::{TableUse, truth_use_at};
use vital_typed_declarations::{SitedDeclaration, sited_declarations};
use vital_uses::SitedNode;

/// Puts the truth table that a node uses at the end. Only a name uses one.
fn put_truth_use(
    reader: &Reader<'_>,
    node: Node<'_>,
    uses: &mut Vec<TableUse>,
) -> Result<(), AllocError>
    ensures { OnOk result (uses.new.items ≡ uses.old.items ++ filter_map (truth_use_at' (lent reader.now)) (seen node.entry ∷ [])) }
{
    match node {
        Node::Name(_) => put_used_at(reader, node, uses),
        _ => Ok(()),
    }
}

/// Puts the truth table that is used at a node at the end.
fn put_used_at(
    reader: &Reader<'_>,
    node: Node<'_>,
    uses: &mut Vec<TableUse>,
) -> Result<(), AllocError>
    ensures { OnOk result (uses.new.items ≡ uses.old.items ++ filter_map (truth_use_at' (lent reader.now)) (seen node.entry ∷ [])) }
{
    if let Some(used) = truth_use_at(reader, node)? {
        uses.push(used)?;
    }
    Ok(())
}

/// Puts the truth tables that nodes use at the end.
pub fn put_truth_uses(
    reader: &Reader<'_>,
    nodes: &[Node<'_>],
    uses: &mut Vec<TableUse>,
) -> Result<(), AllocError>
    ensures { OnOk result (uses.new.items ≡ uses.old.items ++ spec.truth_uses (lent reader.now) (map seen nodes.now)) }
{
    for node in nodes {
        put_truth_use(reader, *node, uses)?;
    }
    Ok(())
}

/// The same, of nodes at their sites.
pub fn put_truth_uses_at(
    reader: &Reader<'_>,
    nodes: &[SitedNode<'_>],
    uses: &mut Vec<TableUse>,
) -> Result<(), AllocError>
    ensures { OnOk result (uses.new.items ≡ uses.old.items ++ spec.truth_uses (lent reader.now) (map (λ v. seen v.node) nodes.now)) }
{
    for node in nodes {
        put_truth_use(reader, node.node, uses)?;
    }
    Ok(())
}

/// Puts the truth tables that a value uses at the end, if there is one.
fn put_of_value(
    reader: &Reader<'_>,
    value: &Option<Expr>,
    uses: &mut Vec<TableUse>,
) -> Result<(), AllocError>
    ensures { OnOk result (uses.new.items ≡ uses.old.items ++ spec.truth_uses (lent reader.now) (nodes_of_all' (expression_if_there value.now))) }
{
    match value {
        Some(expr) => {
            let nodes = nodes_of(reader.alloc, Node::Expression(expr))?;
            put_truth_uses(reader, &nodes, uses)
        }
        None => Ok(()),
    }
}

/// Puts the truth tables that the default of a generic or port uses at the end. Those that are declared together share it, and it counts
/// at the last.
fn put_of_iface<'a>(
    alloc: Global,
    names: &'a CellNames<'a>,
    faults: &'a Faults<'a>,
    iface: &SitedDeclaration<'a, Iface>,
    uses: &mut Vec<TableUse>,
) -> Result<(), AllocError>
    ensures { OnOk result (uses.new.items ≡ uses.old.items ++ spec.uses_of_iface names.now faults.now (lent_sited iface.now)) }
{
    if !iface.declaration.is_last {
        return Ok(());
    }
    let reader = Reader {
        alloc,
        position: Position::Interface(names, iface.site),
        faults,
    };
    put_of_value(&reader, &iface.declaration.parts.get().default, uses)
}

/// Puts the truth tables that the defaults of generics or ports use at the end.
fn put_of_ifaces<'a>(
    alloc: Global,
    names: &'a CellNames<'a>,
    faults: &'a Faults<'a>,
    ifaces: &[SitedDeclaration<'a, Iface>],
    uses: &mut Vec<TableUse>,
) -> Result<(), AllocError>
    ensures { OnOk result (uses.new.items ≡ uses.old.items ++ flat_map (spec.uses_of_iface names.now faults.now) (map lent_sited ifaces.now)) }
{
    for iface in ifaces {
        put_of_iface(alloc, names, faults, iface, uses)?;
    }
    Ok(())
}

/// Puts the truth tables that the value of a declaration uses at the end. Objects that are declared together share it, and it counts at
/// the last.
fn put_of_declaration<'a>(
    alloc: Global,
    names: &'a CellNames<'a>,
    faults: &'a Faults<'a>,
    declaration: &SitedDeclaration<'a, Decl>,
    uses: &mut Vec<TableUse>,
) -> Result<(), AllocError>
    ensures { OnOk result (uses.new.items ≡ uses.old.items ++ spec.uses_of_declaration names.now faults.now (lent_sited declaration.now)) }
{
    let reader = Reader {
        alloc,
        position: Position::Value(names, declaration.site),
        faults,
    };
    match declaration.declaration {
        Decl::Object(object) if object.is_last => {
            put_of_value(&reader, &object.parts.get().value, uses)
        }
        _ => Ok(()),
    }
}

/// Puts the truth tables that the defaults of the generics and ports of a cell use at the end.
pub fn put_of_interface<'a>(
    alloc: Global,
    names: &'a CellNames<'a>,
    faults: &'a Faults<'a>,
    uses: &mut Vec<TableUse>,
) -> Result<(), AllocError>
    ensures { OnOk result (uses.new.items ≡ uses.old.items ++ spec.uses_of_interface names.now faults.now) }
{
    let entity = names.entity();
    let unit = CellUnit::Entity;
    let generics = sited_declarations(alloc, unit, None, entity.generics.as_slice())?;
    put_of_ifaces(alloc, names, faults, &generics, uses)?;
    let ports = sited_declarations(alloc, unit, None, entity.ports.as_slice())?;
    put_of_ifaces(alloc, names, faults, &ports, uses)
}

/// Puts the truth tables that the values of declarations use at the end.
fn put_of_declarations<'a>(
    alloc: Global,
    names: &'a CellNames<'a>,
    faults: &'a Faults<'a>,
    declarations: &[SitedDeclaration<'a, Decl>],
    uses: &mut Vec<TableUse>,
) -> Result<(), AllocError>
    ensures { OnOk result (uses.new.items ≡ uses.old.items ++ flat_map (spec.uses_of_declaration names.now faults.now) (map lent_sited declarations.now)) }
{
    for declaration in declarations {
        put_of_declaration(alloc, names, faults, declaration, uses)?;
    }
    Ok(())
}

/// Puts the truth tables that the values in a region of a cell use at the end.
fn put_of_region<'a>(
    alloc: Global,
    names: &'a CellNames<'a>,
    faults: &'a Faults<'a>,
    region: &'a Region<'a>,
    uses: &mut Vec<TableUse>,
) -> Result<(), AllocError>
    ensures { OnOk result (uses.new.items ≡ uses.old.items ++ spec.uses_of_region names.now faults.now region.now) }
{
    let declarations = sited_declarations(
        alloc,
        CellUnit::Architecture,
        region.process(),
        region.declarations(),
    )?;
    put_of_declarations(alloc, names, faults, &declarations, uses)
}

/// Puts the truth tables that the values in regions of a cell use at the end.
pub fn put_of_regions<'a>(
    alloc: Global,
    names: &'a CellNames<'a>,
    faults: &'a Faults<'a>,
    regions: &'a [Region<'a>],
    uses: &mut Vec<TableUse>,
) -> Result<(), AllocError>
    ensures { OnOk result (uses.new.items ≡ uses.old.items ++ flat_map (spec.uses_of_region names.now faults.now) regions.now) }
{
    for region in regions {
        put_of_region(alloc, names, faults, region, uses)?;
    }
    Ok(())
}
