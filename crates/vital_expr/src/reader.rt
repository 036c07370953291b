//! What expressions are read by.

ghost use Rattle.std.specs.Prelude.{◌≡◌, ◌++◌, None, IfOk, OnOk};
ghost use Rattle.vital_expr.specs.Outcomes.{or_broken};
ghost use Rattle.vital_expr.specs.Readings.{breach};
ghost use Rattle.vital_expr.specs.Seen.{lent};

use std::alloc::{AllocError, Global};
use vital_base::Place;
use vital_nodes::Expr;
use vital_operands::{Faults, Position};

/// What the expressions at a position are read by. Where one is not of its form is put to a list of places, in order; what is of its
/// form is a tree.
#[derive(Clone, Copy)]
pub struct Reader<'a> {
    pub alloc: Global,
    pub position: Position<'a>,
    pub faults: &'a Faults<'a>,
}

impl<'a> Reader<'a> {
    /// An expression that is not of its form.
    pub fn broken<T>(&self, expr: &Expr, broken: &mut Vec<Place>) -> Result<Option<T>, AllocError>
        ensures tree { IfOk result (λ tree. tree ≡ None) }
        ensures places { OnOk result (broken.new.items ≡ broken.old.items ++ breach (lent self.now) expr.now) }
    {
        self.faults.break_at(self.alloc, expr, broken)?;
        Ok(None)
    }

    /// An expression that is this tree, or is not of its form.
    pub fn or_broken<T: Drop>(
        &self,
        tree: Option<T>,
        expr: &Expr,
        broken: &mut Vec<Place>,
    ) -> Result<Option<T>, AllocError>
        ensures tree { IfOk result (λ found. found ≡ (or_broken (breach (lent self.now) expr.now) tree).tree) }
        ensures places { OnOk result (broken.new.items ≡ broken.old.items ++ (or_broken (breach (lent self.now) expr.now) tree).places) }
    {
        match tree {
            Some(tree) => Ok(Some(tree)),
            None => self.broken(expr, broken),
        }
    }
}
