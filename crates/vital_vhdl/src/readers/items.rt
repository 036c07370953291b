//! Reading the items that stand in parentheses.

ghost use Rattle.std.specs.Prelude.{◌≡◌};
ghost use Rattle.vital_shapes.specs.Expressions as spec;
ghost use Rattle.vital_vhdl.specs.Reads.{Reads, ReadsWithin};

use crate::cursor::Cursor;
use crate::readers::expressions::Nested;
use crate::readers::lists::{items_of, separated};
use crate::readers::operators::direction;
use crate::shape_error::ShapeError;
use sqlite_items::{Boxed, Items};
use std::alloc::Global;
use vital_nodes::{Actual, Association, Choice, Expr, Item, Range};

impl<F: Fn(Global, &mut Cursor<'_>, usize) -> Result<Items<Item>, ShapeError>> Nested<F> {
    #[tactic(auto, unfolding(vital_shapes::specs::Expressions::range))]
    fn range(&self, cursor: &mut Cursor<'_>, left: Expr) -> Result<Range, ShapeError>
        requires { ReadsWithin spec.items_within self.now.levels (F.pre self.now.items) (F.post self.now.items) }
        ensures { Reads (spec.range (spec.items_within self.now.levels) left cursor.old) result cursor.new }
    {
        let direction = direction(cursor);
        let right = self.expr(cursor)?;
        Ok(Range {
            left,
            direction,
            right,
        })
    }

    #[tactic(auto, unfolding(vital_shapes::specs::Expressions::value_or_range))]
    fn value_or_range(&self, cursor: &mut Cursor<'_>) -> Result<Choice, ShapeError>
        requires { ReadsWithin spec.items_within self.now.levels (F.pre self.now.items) (F.post self.now.items) }
        ensures { Reads (spec.value_or_range (spec.items_within self.now.levels) cursor.old) result cursor.new }
    {
        let left = self.expr(cursor)?;
        if cursor.choice() == 0 {
            return Ok(Choice::Value(left));
        }
        let range = self.range(cursor, left)?;
        Ok(Choice::Range(Boxed::new(self.alloc, range)?))
    }

    #[tactic(auto, unfolding(vital_shapes::specs::Expressions::actual))]
    fn actual(&self, cursor: &mut Cursor<'_>) -> Result<Actual, ShapeError>
        requires { ReadsWithin spec.items_within self.now.levels (F.pre self.now.items) (F.post self.now.items) }
        ensures { Reads (spec.actual (spec.items_within self.now.levels) cursor.old) result cursor.new }
    {
        let alternative = cursor.choice();
        let place = cursor.place();
        if alternative == 0 {
            return Ok(Actual::Value(self.expr(cursor)?));
        }
        cursor.skip();
        Ok(Actual::Open(place))
    }

    #[tactic(auto, unfolding(vital_shapes::specs::Expressions::association))]
    fn association(&self, cursor: &mut Cursor<'_>) -> Result<Item, ShapeError>
        requires { ReadsWithin spec.items_within self.now.levels (F.pre self.now.items) (F.post self.now.items) }
        ensures { Reads (spec.association (spec.items_within self.now.levels) cursor.old) result cursor.new }
    {
        let first = self.value_or_range(cursor)?;
        if cursor.choice() == 0 {
            return Ok(Item::Positional(first));
        }
        cursor.skip();
        let actual = self.actual(cursor)?;
        let association = Association {
            formal: first,
            actual,
        };
        Ok(Item::Named(Boxed::new(self.alloc, association)?))
    }

    #[tactic(auto, unfolding(vital_shapes::specs::Expressions::one_item))]
    fn one_item(&self, cursor: &mut Cursor<'_>) -> Result<Item, ShapeError>
        requires { ReadsWithin spec.items_within self.now.levels (F.pre self.now.items) (F.post self.now.items) }
        ensures { Reads (spec.one_item (spec.items_within self.now.levels) cursor.old) result cursor.new }
    {
        let alternative = cursor.choice();
        let place = cursor.place();
        match alternative {
            0 => {
                cursor.skip();
                cursor.skip();
                let value = self.expr(cursor)?;
                Ok(Item::Others(place, Boxed::new(self.alloc, value)?))
            }
            1 => {
                cursor.skip();
                Ok(Item::Open(place))
            }
            _ => self.association(cursor),
        }
    }

    #[tactic(auto, unfolding(vital_shapes::specs::Expressions::item_list))]
    fn item_list(&self, cursor: &mut Cursor<'_>) -> Result<Items<Item>, ShapeError>
        requires { ReadsWithin spec.items_within self.now.levels (F.pre self.now.items) (F.post self.now.items) }
        ensures { Reads (spec.item_list (spec.items_within self.now.levels) cursor.old) result cursor.new }
    {
        cursor.choice();
        let found = separated(self.alloc, cursor, |cursor| self.one_item(cursor))?;
        Ok(items_of(found))
    }
}

/// Items with so many levels of parentheses in them, or fewer.
pub(crate) fn items_within(
    alloc: Global,
    cursor: &mut Cursor<'_>,
    levels: usize,
) -> Result<Items<Item>, ShapeError>
    ensures { Reads (spec.items_within levels cursor.old) result cursor.new }
{
    if levels == 0 {
        return Ok(Items::new(alloc));
    }
    Nested {
        alloc,
        levels: levels - 1,
        items: items_within,
    }
    .item_list(cursor)
}
