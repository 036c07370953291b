//! Trees of expressions that are read one after another.

ghost use Rattle.std.specs.Prelude.{◌≡◌, [], Some, OnOk};
ghost use Rattle.vital_expr.specs.Outcomes.{with_tree};

use sqlite_items::Items;
use std::alloc::{AllocError, Global};
use std::marker::Model;

/// The trees of expressions that are read one after another, as long as each is of its form.
#[derive(Drop)]
pub struct Trees<T> {
    trees: Vec<T>,
    are_typed: bool,
}

impl<T> Model for Trees<T> {
    ghost use Rattle.std.specs.Prelude.{List, Option, Some, None, if◌then◌else◌};

    ghost Value = { Option (List T) };

    ghost view = { λ t. if t.are_typed then Some t.trees.items else None };
}

impl<T: Drop> Trees<T> {
    /// None yet.
    pub fn new(alloc: Global) -> Trees<T>
        ensures { result ≡ Some [] }
    {
        Trees {
            trees: Vec::new(alloc),
            are_typed: true,
        }
    }

    /// Puts what came of the next expression at the end.
    pub fn put(&mut self, tree: Option<T>) -> Result<(), AllocError>
        ensures { OnOk result (self.new ≡ with_tree self.old tree) }
    {
        match tree {
            Some(tree) => self.trees.push(tree)?,
            None => self.are_typed = false,
        }
        Ok(())
    }

    /// All of them, if each expression was of its form.
    pub fn into_items(self) -> Option<Items<T>>
        ensures { result ≡ self }
    {
        let Trees { trees, are_typed } = self;
        if are_typed {
            Some(Items::from_vec(trees))
        } else {
            None
        }
    }
}
