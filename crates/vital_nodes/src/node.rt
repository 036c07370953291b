//! Nodes of every kind.

ghost use Rattle.std.specs.Prelude.{◌≡◌};
ghost use Rattle.vital_nodes.specs.Nodes.{Node as Node', Declaration, Interface, Concurrent, Sequential, Expression, Item, Name};
ghost use Rattle.vital_nodes.specs.Seen.{seen};

use crate::decl::{Decl, Iface};
use crate::expr::{Expr, Item, Reference};
use crate::stmt::{Conc, Stmt};

/// A node of a unit, borrowed from it.
#[derive(Clone, Copy)]
pub enum Node<'a> {
    /// A declaration.
    Declaration(&'a Decl),
    /// A generic or a port.
    Interface(&'a Iface),
    /// A concurrent statement.
    Concurrent(&'a Conc),
    /// A statement of a process.
    Sequential(&'a Stmt),
    Expression(&'a Expr),
    /// An item in parentheses.
    Item(&'a Item),
    /// A name: an identifier with what follows it.
    Name(&'a Reference),
}

/// What is a node of one kind.
pub trait OneKind {
    ghost node_of: { Self → Node' };

    /// It as a node.
    fn as_node(&self) -> Node<'_>
        ensures { seen result ≡ node_of self.now };
}

impl OneKind for Decl {
    ghost node_of = { λ d. Declaration d };

    fn as_node(&self) -> Node<'_> {
        Node::Declaration(self)
    }
}

impl OneKind for Iface {
    ghost node_of = { λ i. Interface i };

    fn as_node(&self) -> Node<'_> {
        Node::Interface(self)
    }
}

impl OneKind for Conc {
    ghost node_of = { λ c. Concurrent c };

    fn as_node(&self) -> Node<'_> {
        Node::Concurrent(self)
    }
}

impl OneKind for Stmt {
    ghost node_of = { λ s. Sequential s };

    fn as_node(&self) -> Node<'_> {
        Node::Sequential(self)
    }
}

impl OneKind for Expr {
    ghost node_of = { λ e. Expression e };

    fn as_node(&self) -> Node<'_> {
        Node::Expression(self)
    }
}

impl OneKind for Item {
    ghost node_of = { λ i. Item i };

    fn as_node(&self) -> Node<'_> {
        Node::Item(self)
    }
}

impl OneKind for Reference {
    ghost node_of = { λ r. Name r };

    fn as_node(&self) -> Node<'_> {
        Node::Name(self)
    }
}
