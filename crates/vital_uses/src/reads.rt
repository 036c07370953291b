//! What processes read that their sensitivity lists lack.

ghost use Rattle.std.specs.Prelude.{◌≡◌, [], ◌∷◌, ◌++◌, filter, map, IfOk, OnOk, is_some};
ghost use Rattle.std.specs.List.{filter_map, flat_map, list_any};
ghost use Rattle.std.specs.Option.{option_map};
ghost use Rattle.vital_nodes.specs.Nodes.{Expression, Name, parts_of};
ghost use Rattle.vital_names.specs.FirstNames.{first_in};
ghost use Rattle.vital_names.specs.Declarations as declarations;
ghost use Rattle.vital_names.specs.Meanings as meanings;
ghost use Rattle.vital_nodes.specs.Names.{plain_identifier};
ghost use Rattle.vital_nodes.specs.Seen.{seen};
ghost use Rattle.vital_nodes.specs.Statements.{all_sequential};
ghost use Rattle.vital_uses.specs.Asked.{asked, lent_asked};
ghost use Rattle.vital_uses.specs.NamesAt.{at, lent_name};
ghost use Rattle.vital_uses.specs.Reads as spec;
ghost use Rattle.vital_uses.specs.Sited.{lent_node};

use crate::asked::{Asked, asked_at_nodes};
use crate::names_at::{FirstPlaces, NameAt, first_places};
use crate::nodes::put_nodes_in;
use crate::parts::ValueParts;
use crate::process_uses::ProcessUses;
use crate::sited::{SitedNode, put_seen_from_themselves};
use crate::unread::is_unread;
use std::alloc::{AllocError, Global};
use vital_base::Place;
use vital_names::{CellUnit, Declared, Meaning, ProcessNames};
use vital_nodes::{
    Branch, Mode, Node, ObjectClass, Reference, Stmt, plain_identifier, put_if_there, put_parts,
    walked_in_preorder,
};

/// Whether a part of a call is read: it is, unless it is given alone to a formal that isn't read.
fn is_read(node: Node<'_>) -> bool
    ensures { result ≡ spec.is_read (seen node.entry) }
{
    match node {
        Node::Item(item) => !is_unread(item),
        _ => true,
    }
}

/// Puts the parts of a statement that it reads at the end. Each statement in an `if` reads for itself.
fn put_read_in<'a>(
    alloc: Global,
    parts: &mut Vec<Node<'a>>,
    stmt: &'a Stmt,
) -> Result<(), AllocError>
    ensures { OnOk result (map seen parts.new.items ≡ map seen parts.old.items ++ spec.read_in stmt.now) }
{
    match stmt {
        Stmt::VariableAssignment(_, assignment) => {
            put_parts(parts, Node::Name(&assignment.target))?;
            parts.push(Node::Expression(&assignment.value))?;
            Ok(())
        }
        Stmt::SignalAssignment(_, assignment) => {
            put_parts(parts, Node::Name(&assignment.target))?;
            parts.push(Node::Expression(&assignment.value))?;
            put_if_there(parts, &assignment.after)
        }
        Stmt::Call(_, name) => put_read_in_call(alloc, parts, name),
        Stmt::If(_, statement) => put_conditions(parts, statement.branches.as_slice()),
        Stmt::Null(_) => Ok(()),
    }
}

/// Puts the parts of a call that it reads at the end.
fn put_read_in_call<'a>(
    alloc: Global,
    parts: &mut Vec<Node<'a>>,
    name: &'a Reference,
) -> Result<(), AllocError>
    ensures { OnOk result (map seen parts.new.items ≡ map seen parts.old.items ++ filter spec.is_read (parts_of (Name name.now))) }
{
    let mut all = Vec::new(alloc);
    put_parts(&mut all, Node::Name(name))?;
    put_read(parts, &all)?;
    Ok(())
}

/// Puts those of the parts of a call that are read at the end.
fn put_read<'a>(parts: &mut Vec<Node<'a>>, all: &[Node<'a>]) -> Result<(), AllocError>
    ensures { OnOk result (map seen parts.new.items ≡ map seen parts.old.items ++ filter spec.is_read (map seen all.now)) }
{
    for node in all {
        put_if_read(parts, *node)?;
    }
    Ok(())
}

/// Puts a part of a call at the end if it is read.
fn put_if_read<'a>(parts: &mut Vec<Node<'a>>, node: Node<'a>) -> Result<(), AllocError>
    ensures { OnOk result (map seen parts.new.items ≡ map seen parts.old.items ++ filter spec.is_read (seen node.entry ∷ [])) }
{
    if is_read(node) {
        parts.push(node)?;
    }
    Ok(())
}

/// Puts the conditions of branches at the end.
fn put_conditions<'a>(parts: &mut Vec<Node<'a>>, branches: &'a [Branch]) -> Result<(), AllocError>
    ensures { OnOk result (map seen parts.new.items ≡ map seen parts.old.items ++ map (λ b. Expression b.condition) branches.now) }
{
    for branch in branches {
        parts.push(Node::Expression(&branch.condition))?;
    }
    Ok(())
}

/// The parts of statements that they read, in order.
fn read_in_all<'a>(alloc: Global, statements: &[&'a Stmt]) -> Result<Vec<Node<'a>>, AllocError>
    ensures { IfOk result (λ parts. map seen parts.items ≡ flat_map spec.read_in (map (λ s. s.now) statements.now)) }
{
    let mut parts = Vec::new(alloc);
    for stmt in statements {
        put_read_in(alloc, &mut parts, stmt)?;
    }
    Ok(parts)
}

/// The nodes that a process reads, of which these are all statements.
fn read_nodes<'a>(
    alloc: Global,
    process: &'a ProcessNames<'a>,
    statements: &[&'a Stmt],
) -> Result<Vec<SitedNode<'a>>, AllocError>
    requires { map (λ s. s.now) statements.now ≡ all_sequential process.now.statements }
    ensures { IfOk result (λ nodes. map lent_node nodes.items ≡ spec.read_nodes process.now) }
{
    let declarations = process.process().declarations.as_slice();
    let mut nodes = Vec::new(alloc);
    put_nodes_in(
        alloc,
        &mut nodes,
        &ValueParts,
        CellUnit::Architecture,
        Some(process),
        declarations,
    )?;
    let parts = read_in_all(alloc, statements)?;
    put_seen_from_themselves(alloc, &mut nodes, Some(process), parts)?;
    Ok(nodes)
}

/// Whether what is declared is an internal signal, or an in or inout port.
fn is_signal(declared: Declared<'_>) -> bool
    ensures { result ≡ spec.is_signal (declarations.lent declared.entry) }
{
    match declared {
        Declared::Port(port) => matches!(port.parts.get().mode, Mode::In | Mode::Inout),
        Declared::Object(object) => matches!(object.class, ObjectClass::Signal),
        Declared::Generic(_) | Declared::Alias(_) => false,
    }
}

/// Whether a meaning is an internal signal, or an in or inout port.
fn means_signal(meaning: Option<Meaning<'_>>) -> bool
    ensures { result ≡ spec.means_signal (option_map meanings.lent meaning.entry) }
{
    match meaning {
        Some(Meaning::Declared(declared)) => is_signal(declared),
        _ => false,
    }
}

/// The names that stand alone in a sensitivity list.
fn listed<'a>(alloc: Global, sensitivity: &'a [Reference]) -> Result<Vec<NameAt<'a>>, AllocError>
    ensures { IfOk result (λ listed. map lent_name listed.items ≡ map at (filter_map plain_identifier sensitivity.now)) }
{
    let mut listed = Vec::new(alloc);
    for name in sensitivity {
        put_listed(&mut listed, name)?;
    }
    Ok(listed)
}

/// Puts a name at the end if it stands alone.
fn put_listed<'a>(listed: &mut Vec<NameAt<'a>>, name: &'a Reference) -> Result<(), AllocError>
    ensures { OnOk result (map lent_name listed.new.items ≡ map lent_name listed.old.items ++ map at (filter_map plain_identifier (name.now ∷ []))) }
{
    if let Some(identifier) = plain_identifier(name) {
        listed.push(NameAt::of(identifier))?;
    }
    Ok(())
}

/// Whether an identifier means a signal or port that a list lacks.
fn is_unlisted<'a>(listed: &FirstPlaces<'a>, asked: Asked<'a>) -> bool
    ensures { result ≡ spec.is_unlisted (λ name. is_some (first_in listed.now name)) (lent_asked asked.entry) }
{
    means_signal(asked.meaning) && !listed.contains_key(asked.identifier.name.as_slice())
}

/// Whether one of the identifiers means a signal or port that a list lacks.
fn has_unlisted<'a>(listed: &FirstPlaces<'a>, asked: &[Asked<'a>]) -> bool
    ensures { result ≡ list_any (λ a. spec.is_unlisted (λ name. is_some (first_in listed.now name)) (lent_asked a)) asked.now }
{
    asked.iter().any(|one| is_unlisted(listed, *one))
}

/// Puts the places of those identifiers at the end that mean a signal or port that a list lacks.
fn put_unlisted<'a>(
    places: &mut Vec<Place>,
    listed: &FirstPlaces<'a>,
    asked: &[Asked<'a>],
) -> Result<(), AllocError>
    ensures { OnOk result (places.new.items ≡ places.old.items ++ map (λ a. a.identifier.place) (filter (spec.is_unlisted (λ name. is_some (first_in listed.now name))) (map lent_asked asked.now))) }
{
    for one in asked {
        put_if_unlisted(places, listed, *one)?;
    }
    Ok(())
}

/// Puts the place of an identifier at the end if it means a signal or port that a list lacks.
fn put_if_unlisted<'a>(
    places: &mut Vec<Place>,
    listed: &FirstPlaces<'a>,
    asked: Asked<'a>,
) -> Result<(), AllocError>
    ensures { OnOk result (places.new.items ≡ places.old.items ++ map (λ a. a.identifier.place) (filter (spec.is_unlisted (λ name. is_some (first_in listed.now name))) (lent_asked asked.entry ∷ []))) }
{
    if is_unlisted(listed, asked) {
        places.push(asked.identifier.place)?;
    }
    Ok(())
}

impl<'a> ProcessUses<'a> {
    /// Puts the place of each signal or port that the process reads and its list lacks at the end. What it reads is among its nodes:
    /// it is looked for only where one of these is lacking in the list.
    pub fn put_unlisted(&self, alloc: Global, places: &mut Vec<Place>) -> Result<(), AllocError>
        ensures { OnOk result (places.new.items ≡ places.old.items ++ spec.unlisted self.now.0 self.now.1) }
    {
        let names = listed(alloc, self.process().process().sensitivity.as_slice())?;
        let listed = first_places(alloc, &names)?;
        self.put_lacking(alloc, places, &listed)
    }

    /// The same, where the names of the list stand at these places.
    fn put_lacking(
        &self,
        alloc: Global,
        places: &mut Vec<Place>,
        listed: &FirstPlaces<'a>,
    ) -> Result<(), AllocError>
        ensures { OnOk result (places.new.items ≡ places.old.items ++ map (λ a. a.identifier.place) (filter (spec.is_unlisted (λ name. is_some (first_in listed.now name))) (asked self.now.0 (spec.read_nodes self.now.1)))) }
    {
        walked_in_preorder();
        if !has_unlisted(listed, self.asked()) {
            return Ok(());
        }
        let nodes = read_nodes(alloc, self.process(), self.statements())?;
        let asked = asked_at_nodes(alloc, self.names(), &nodes)?;
        put_unlisted(places, listed, &asked)?;
        Ok(())
    }
}
