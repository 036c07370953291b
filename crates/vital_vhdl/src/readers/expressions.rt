//! Reading names and expressions. What stands in parentheses is read by a parameter, so that each rule is proved by itself.

ghost use Rattle.std.specs.Prelude.{◌≡◌, Some};
ghost use Rattle.vital_shapes.specs.Expressions as spec;
ghost use Rattle.vital_shapes.specs.Reading.{after, many, next_place};
ghost use Rattle.vital_vhdl.specs.Levels.{outwards};
ghost use Rattle.vital_vhdl.specs.Reads.{Reads, ReadsWithin};

use crate::cursor::Cursor;
use crate::readers::chains::{product_of, sum_of};
use crate::readers::lists::{self, items_of};
use crate::readers::literals::{number, second_byte};
use crate::readers::operators::{
    adding_of, logical_of, multiplying_of, relational_of, sign_before,
};
use crate::shape_error::ShapeError;
use sqlite_items::{Boxed, Items};
use std::alloc::Global;
use vital_base::{Name, Place};
use vital_nodes::{Adding, Expr, Item, Multiplying, Reference, Relation, Sign, Suffix};

/// Reads what may hold items in parentheses.
#[derive(Clone, Copy)]
pub(crate) struct Nested<F> {
    pub(crate) alloc: Global,
    /// How many levels of parentheses there may be in such items.
    pub(crate) levels: usize,
    pub(crate) items: F,
}

impl<F: Fn(Global, &mut Cursor<'_>, usize) -> Result<Items<Item>, ShapeError>> Nested<F> {
    /// Items between parentheses.
    #[tactic(auto, unfolding(vital_shapes::specs::Expressions::in_parentheses))]
    fn in_parentheses(&self, cursor: &mut Cursor<'_>) -> Result<Items<Item>, ShapeError>
        requires { ReadsWithin spec.items_within self.now.levels (F.pre self.now.items) (F.post self.now.items) }
        ensures { Reads (spec.in_parentheses (spec.items_within self.now.levels) cursor.old) result cursor.new }
    {
        cursor.skip();
        let found = (self.items)(self.alloc, cursor, self.levels)?;
        cursor.skip();
        Ok(found)
    }

    /// What follows a dot.
    #[tactic(auto, unfolding(vital_shapes::specs::Expressions::selected))]
    fn selected(&self, cursor: &mut Cursor<'_>) -> Result<Suffix, ShapeError>
        ensures { Reads (spec.selected (spec.items_within self.now.levels) cursor.old) result cursor.new }
    {
        cursor.skip();
        if cursor.choice() == 0 {
            return Ok(Suffix::Selected(cursor.identifier(self.alloc)?));
        }
        let place = cursor.place();
        cursor.skip();
        Ok(Suffix::All(place))
    }

    /// What follows a tick.
    #[tactic(auto, unfolding(vital_shapes::specs::Expressions::ticked))]
    fn ticked(&self, cursor: &mut Cursor<'_>) -> Result<Suffix, ShapeError>
        requires { ReadsWithin spec.items_within self.now.levels (F.pre self.now.items) (F.post self.now.items) }
        ensures { Reads (spec.ticked (spec.items_within self.now.levels) cursor.old) result cursor.new }
    {
        cursor.skip();
        if cursor.choice() == 0 {
            return Ok(Suffix::Attribute(cursor.identifier(self.alloc)?));
        }
        Ok(Suffix::Qualified(self.in_parentheses(cursor)?))
    }

    #[tactic(auto, unfolding(vital_shapes::specs::Expressions::suffix))]
    fn suffix(&self, cursor: &mut Cursor<'_>, alternative: u16) -> Result<Suffix, ShapeError>
        requires { ReadsWithin spec.items_within self.now.levels (F.pre self.now.items) (F.post self.now.items) }
        ensures { Reads (spec.suffix (spec.items_within self.now.levels) alternative cursor.old) result cursor.new }
    {
        match alternative {
            1 => self.selected(cursor),
            2 => self.ticked(cursor),
            _ => Ok(Suffix::Items(self.in_parentheses(cursor)?)),
        }
    }

    /// What follows the identifier of a name.
    pub(crate) fn suffixes(&self, cursor: &mut Cursor<'_>) -> Result<Items<Suffix>, ShapeError>
        requires { ReadsWithin spec.items_within self.now.levels (F.pre self.now.items) (F.post self.now.items) }
        ensures { Reads (many (spec.suffix (spec.items_within self.now.levels)) cursor.old) result cursor.new }
    {
        lists::many(self.alloc, cursor, |cursor, alternative| {
            self.suffix(cursor, alternative)
        })
    }

    #[tactic(auto, unfolding(vital_shapes::specs::Expressions::reference))]
    pub(crate) fn reference(&self, cursor: &mut Cursor<'_>) -> Result<Reference, ShapeError>
        requires { ReadsWithin spec.items_within self.now.levels (F.pre self.now.items) (F.post self.now.items) }
        ensures { Reads (spec.reference (spec.items_within self.now.levels) cursor.old) result cursor.new }
    {
        cursor.choice();
        let identifier = cursor.identifier(self.alloc)?;
        let suffixes = self.suffixes(cursor)?;
        Ok(Reference {
            identifier,
            suffixes,
        })
    }

    #[tactic(auto, unfolding(vital_shapes::specs::Expressions::primary))]
    fn primary(&self, cursor: &mut Cursor<'_>) -> Result<Expr, ShapeError>
        requires { ReadsWithin spec.items_within self.now.levels (F.pre self.now.items) (F.post self.now.items) }
        ensures { Reads (spec.primary (spec.items_within self.now.levels) cursor.old) result cursor.new }
    {
        let alternative = cursor.choice();
        if alternative == 0 {
            return number(self.alloc, cursor);
        }
        if alternative == 3 {
            return Ok(Expr::Reference(self.reference(cursor)?));
        }
        let place = cursor.place();
        match alternative {
            1 => Ok(Expr::Character(place, second_byte(cursor.spelling()))),
            2 => {
                let text = Vec::from_slice(self.alloc, cursor.spelling())?;
                Ok(Expr::StringLiteral(place, Name::new(text)))
            }
            _ => Ok(Expr::Parenthesized(place, self.in_parentheses(cursor)?)),
        }
    }

    #[tactic(auto, unfolding(vital_shapes::specs::Expressions::factor))]
    fn factor(&self, cursor: &mut Cursor<'_>) -> Result<Expr, ShapeError>
        requires { ReadsWithin spec.items_within self.now.levels (F.pre self.now.items) (F.post self.now.items) }
        ensures { Reads (spec.factor (spec.items_within self.now.levels) cursor.old) result cursor.new }
    {
        let alternative = cursor.choice();
        let place = cursor.place();
        if alternative == 0 {
            cursor.skip();
            let operand = self.primary(cursor)?;
            return Ok(Expr::Not(place, Boxed::new(self.alloc, operand)?));
        }
        self.primary(cursor)
    }

    #[tactic(auto, unfolding(vital_shapes::specs::Expressions::next_factor))]
    fn next_factor(
        &self,
        cursor: &mut Cursor<'_>,
        alternative: u16,
    ) -> Result<(Multiplying, Expr), ShapeError>
        requires { ReadsWithin spec.items_within self.now.levels (F.pre self.now.items) (F.post self.now.items) }
        ensures { Reads (spec.next_factor (spec.items_within self.now.levels) alternative cursor.old) result cursor.new }
    {
        cursor.skip();
        let factor = self.factor(cursor)?;
        Ok((multiplying_of(alternative), factor))
    }

    fn factors(&self, cursor: &mut Cursor<'_>) -> Result<Items<(Multiplying, Expr)>, ShapeError>
        requires { ReadsWithin spec.items_within self.now.levels (F.pre self.now.items) (F.post self.now.items) }
        ensures { Reads (many (spec.next_factor (spec.items_within self.now.levels)) cursor.old) result cursor.new }
    {
        lists::many(self.alloc, cursor, |cursor, alternative| {
            self.next_factor(cursor, alternative)
        })
    }

    #[tactic(auto, unfolding(vital_shapes::specs::Expressions::after_factor))]
    fn after_factor(
        &self,
        cursor: &mut Cursor<'_>,
        place: Place,
        first: Expr,
    ) -> Result<Expr, ShapeError>
        requires { ReadsWithin spec.items_within self.now.levels (F.pre self.now.items) (F.post self.now.items) }
        ensures { Reads (spec.after_factor (spec.items_within self.now.levels) place first cursor.old) result cursor.new }
    {
        let others = self.factors(cursor)?;
        Ok(product_of(self.alloc, place, first, others)?)
    }

    #[tactic(auto, unfolding(vital_shapes::specs::Expressions::term))]
    fn term(&self, cursor: &mut Cursor<'_>) -> Result<Expr, ShapeError>
        requires { ReadsWithin spec.items_within self.now.levels (F.pre self.now.items) (F.post self.now.items) }
        ensures { Reads (spec.term (spec.items_within self.now.levels) cursor.old) result cursor.new }
    {
        cursor.choice();
        let place = cursor.place();
        let first = self.factor(cursor)?;
        self.after_factor(cursor, place, first)
    }

    #[tactic(auto, unfolding(vital_shapes::specs::Expressions::next_term))]
    fn next_term(
        &self,
        cursor: &mut Cursor<'_>,
        alternative: u16,
    ) -> Result<(Adding, Expr), ShapeError>
        requires { ReadsWithin spec.items_within self.now.levels (F.pre self.now.items) (F.post self.now.items) }
        ensures { Reads (spec.next_term (spec.items_within self.now.levels) alternative cursor.old) result cursor.new }
    {
        cursor.skip();
        let term = self.term(cursor)?;
        Ok((adding_of(alternative), term))
    }

    fn terms(&self, cursor: &mut Cursor<'_>) -> Result<Items<(Adding, Expr)>, ShapeError>
        requires { ReadsWithin spec.items_within self.now.levels (F.pre self.now.items) (F.post self.now.items) }
        ensures { Reads (many (spec.next_term (spec.items_within self.now.levels)) cursor.old) result cursor.new }
    {
        lists::many(self.alloc, cursor, |cursor, alternative| {
            self.next_term(cursor, alternative)
        })
    }

    #[tactic(auto, unfolding(vital_shapes::specs::Expressions::after_term))]
    fn after_term(
        &self,
        cursor: &mut Cursor<'_>,
        place: Place,
        sign: Option<Sign>,
        first: Expr,
    ) -> Result<Expr, ShapeError>
        requires { ReadsWithin spec.items_within self.now.levels (F.pre self.now.items) (F.post self.now.items) }
        ensures { Reads (spec.after_term (spec.items_within self.now.levels) place sign first cursor.old) result cursor.new }
    {
        let others = self.terms(cursor)?;
        Ok(sum_of(self.alloc, place, sign, first, others)?)
    }

    #[tactic(auto, unfolding(vital_shapes::specs::Expressions::simple))]
    fn simple(&self, cursor: &mut Cursor<'_>) -> Result<Expr, ShapeError>
        requires { ReadsWithin spec.items_within self.now.levels (F.pre self.now.items) (F.post self.now.items) }
        ensures { Reads (spec.simple (spec.items_within self.now.levels) cursor.old) result cursor.new }
    {
        cursor.choice();
        let place = cursor.place();
        let sign = sign_before(cursor);
        let first = self.term(cursor)?;
        self.after_term(cursor, place, sign, first)
    }

    #[tactic(auto, unfolding(vital_shapes::specs::Expressions::after_sum))]
    fn after_sum(
        &self,
        cursor: &mut Cursor<'_>,
        place: Place,
        first: Expr,
    ) -> Result<Expr, ShapeError>
        requires { ReadsWithin spec.items_within self.now.levels (F.pre self.now.items) (F.post self.now.items) }
        ensures { Reads (spec.after_sum (spec.items_within self.now.levels) place first cursor.old) result cursor.new }
    {
        let alternative = cursor.choice();
        if alternative == 0 {
            return Ok(first);
        }
        cursor.skip();
        let second = self.simple(cursor)?;
        let relation = Relation {
            place,
            operator: relational_of(alternative),
            left: first,
            right: second,
        };
        Ok(Expr::Relation(Boxed::new(self.alloc, relation)?))
    }

    #[tactic(auto, unfolding(vital_shapes::specs::Expressions::relation))]
    fn relation(&self, cursor: &mut Cursor<'_>) -> Result<Expr, ShapeError>
        requires { ReadsWithin spec.items_within self.now.levels (F.pre self.now.items) (F.post self.now.items) }
        ensures { Reads (spec.relation (spec.items_within self.now.levels) cursor.old) result cursor.new }
    {
        cursor.choice();
        let place = cursor.place();
        let first = self.simple(cursor)?;
        self.after_sum(cursor, place, first)
    }

    fn next_relation(&self, cursor: &mut Cursor<'_>) -> Result<Expr, ShapeError>
        requires { ReadsWithin spec.items_within self.now.levels (F.pre self.now.items) (F.post self.now.items) }
        ensures { Reads (after (spec.relation (spec.items_within self.now.levels)) cursor.old) result cursor.new }
    {
        cursor.skip();
        self.relation(cursor)
    }

    #[tactic(auto, unfolding(vital_shapes::specs::Expressions::operands))]
    fn operands(
        &self,
        cursor: &mut Cursor<'_>,
        first: Expr,
        alternative: u16,
    ) -> Result<Items<Expr>, ShapeError>
        requires { ReadsWithin spec.items_within self.now.levels (F.pre self.now.items) (F.post self.now.items) }
        ensures { Reads (spec.operands (spec.items_within self.now.levels) first alternative cursor.old) result cursor.new }
    {
        cursor.skip();
        let second = self.relation(cursor)?;
        let found = lists::two(self.alloc, first, second)?;
        if alternative > 4 {
            return Ok(items_of(found));
        }
        let found = lists::more(cursor, found, |cursor, _| self.next_relation(cursor))?;
        Ok(items_of(found))
    }

    #[tactic(auto, unfolding(vital_shapes::specs::Expressions::after_relation))]
    fn after_relation(
        &self,
        cursor: &mut Cursor<'_>,
        place: Place,
        first: Expr,
    ) -> Result<Expr, ShapeError>
        requires { ReadsWithin spec.items_within self.now.levels (F.pre self.now.items) (F.post self.now.items) }
        ensures { Reads (spec.after_relation (spec.items_within self.now.levels) place first cursor.old) result cursor.new }
    {
        let alternative = cursor.choice();
        if alternative == 0 {
            return Ok(first);
        }
        let operands = self.operands(cursor, first, alternative)?;
        Ok(Expr::Logical(place, logical_of(alternative), operands))
    }

    /// An expression, level by level.
    #[tactic(auto, unfolding(vital_shapes::specs::Expressions::expr))]
    fn by_levels(&self, cursor: &mut Cursor<'_>) -> Result<Expr, ShapeError>
        requires { ReadsWithin spec.items_within self.now.levels (F.pre self.now.items) (F.post self.now.items) }
        ensures { Reads (spec.expr (spec.items_within self.now.levels) cursor.old) result cursor.new }
    {
        cursor.choice();
        let place = cursor.place();
        let first = self.relation(cursor)?;
        self.after_relation(cursor, place, first)
    }

    /// The expression that begins with this primary.
    fn outwards(
        &self,
        cursor: &mut Cursor<'_>,
        place: Place,
        primary: Expr,
    ) -> Result<Expr, ShapeError>
        requires { ReadsWithin spec.items_within self.now.levels (F.pre self.now.items) (F.post self.now.items) }
        ensures { Reads (outwards (spec.items_within self.now.levels) place (Some (primary, cursor.old))) result cursor.new }
    {
        let term = self.after_factor(cursor, place, primary)?;
        let sum = self.after_term(cursor, place, None, term)?;
        let relation = self.after_sum(cursor, place, sum)?;
        self.after_relation(cursor, place, relation)
    }

    /// The expression whose first primary stands here.
    #[tactic(auto, using(crate::proofs::Straight::is_alone))]
    fn from_primary(&self, cursor: &mut Cursor<'_>) -> Result<Expr, ShapeError>
        requires { ReadsWithin spec.items_within self.now.levels (F.pre self.now.items) (F.post self.now.items) }
        ensures { Reads (outwards (spec.items_within self.now.levels) (next_place cursor.old) (spec.primary (spec.items_within self.now.levels) cursor.old)) result cursor.new }
    {
        let place = cursor.place();
        let primary = self.primary(cursor)?;
        if cursor.pass_ends() {
            return Ok(primary);
        }
        self.outwards(cursor, place, primary)
    }

    /// An expression. Most begin with a primary, and most of these are no more: their levels, which are empty, are passed at
    /// once.
    #[tactic(auto, using(crate::proofs::Straight::is_straight))]
    pub(crate) fn expr(&self, cursor: &mut Cursor<'_>) -> Result<Expr, ShapeError>
        requires { ReadsWithin spec.items_within self.now.levels (F.pre self.now.items) (F.post self.now.items) }
        ensures { Reads (spec.expr (spec.items_within self.now.levels) cursor.old) result cursor.new }
    {
        if cursor.pass_to_primary() {
            return self.from_primary(cursor);
        }
        self.by_levels(cursor)
    }
}
