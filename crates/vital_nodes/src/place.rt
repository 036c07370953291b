//! Where nodes stand.

ghost use Rattle.std.specs.Prelude.{◌≡◌};
ghost use Rattle.vital_base.specs.declared.place.Place.{Place as Place'};
ghost use Rattle.vital_nodes.specs.Places.{identifier_of_decl, place_of, place_of_choice, place_of_conc, place_of_expr, place_of_item, place_of_name, place_of_stmt, place_of_unit};
ghost use Rattle.vital_nodes.specs.Seen.{seen};

use crate::decl::{Decl, Iface};
use crate::expr::{Choice, Expr, Item, Reference};
use crate::has_identifier::HasIdentifier;
use crate::node::Node;
use crate::stmt::{Conc, Stmt};
use crate::unit::Unit;
use vital_base::Place;

/// What stands somewhere: a declaration, a generic or a port at its identifier, and everything else at its first token.
pub trait HasPlace {
    ghost place_is: { Self → Place' };

    /// Where it stands.
    fn place(&self) -> Place
        ensures { result ≡ place_is self.now };
}

impl HasPlace for Decl {
    ghost place_is = { λ d. (identifier_of_decl d).place };

    fn place(&self) -> Place {
        self.identifier().place
    }
}

impl HasPlace for Iface {
    ghost place_is = { λ i. i.identifier.place };

    fn place(&self) -> Place {
        self.identifier.place
    }
}

impl HasPlace for Conc {
    ghost place_is = { place_of_conc };

    fn place(&self) -> Place {
        match self {
            Conc::Process(place, _, _)
            | Conc::ComponentInstance(place, _)
            | Conc::Instance(place, _)
            | Conc::Block(place, _, _)
            | Conc::Call(place, _)
            | Conc::SignalAssignment(place, _) => *place,
        }
    }
}

impl HasPlace for Stmt {
    ghost place_is = { place_of_stmt };

    fn place(&self) -> Place {
        match self {
            Stmt::VariableAssignment(place, _)
            | Stmt::SignalAssignment(place, _)
            | Stmt::Call(place, _)
            | Stmt::If(place, _)
            | Stmt::Null(place) => *place,
        }
    }
}

impl HasPlace for Reference {
    ghost place_is = { place_of_name };

    fn place(&self) -> Place {
        self.identifier.place
    }
}

impl HasPlace for Expr {
    ghost place_is = { place_of_expr };

    fn place(&self) -> Place {
        match self {
            Expr::Relation(relation) => relation.get().place,
            Expr::Sum(sum) => sum.get().place,
            Expr::Product(product) => product.get().place,
            Expr::Physical(physical) => physical.get().place,
            Expr::Reference(name) => name.identifier.place,
            Expr::Logical(place, _, _)
            | Expr::Not(place, _)
            | Expr::Number(place, _)
            | Expr::Character(place, _)
            | Expr::StringLiteral(place, _)
            | Expr::Parenthesized(place, _) => *place,
        }
    }
}

impl HasPlace for Choice {
    ghost place_is = { place_of_choice };

    fn place(&self) -> Place {
        match self {
            Choice::Value(value) => value.place(),
            Choice::Range(range) => range.get().left.place(),
        }
    }
}

impl HasPlace for Item {
    ghost place_is = { place_of_item };

    fn place(&self) -> Place {
        match self {
            Item::Others(place, _) | Item::Open(place) => *place,
            Item::Positional(choice) => choice.place(),
            Item::Named(association) => association.get().formal.place(),
        }
    }
}

impl HasPlace for Unit {
    ghost place_is = { place_of_unit };

    fn place(&self) -> Place {
        match self {
            Unit::Entity(entity) => entity.place,
            Unit::Arch(arch) => arch.place,
            Unit::Pack(pack) => pack.place,
            Unit::Config(config) => config.place,
        }
    }
}

impl<'a> HasPlace for Node<'a> {
    ghost place_is = { λ v. place_of (seen v) };

    #[tactic(auto, unfolding(crate::specs::Places::place_of))]
    fn place(&self) -> Place {
        match self {
            Node::Declaration(decl) => decl.place(),
            Node::Interface(iface) => iface.place(),
            Node::Concurrent(conc) => conc.place(),
            Node::Sequential(stmt) => stmt.place(),
            Node::Expression(expr) => expr.place(),
            Node::Item(item) => item.place(),
            Node::Name(name) => name.place(),
        }
    }
}
