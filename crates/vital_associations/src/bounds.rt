//! The least and the greatest number of ranges.

ghost use Rattle.std.specs.Prelude.{◌≡◌, ◌==◌};
ghost use Rattle.vital_associations.specs.Overlaps as spec;
ghost use Rattle.vital_declarations.specs.Numbers.{length_of, number, range_of};
ghost use Rattle.vital_nodes.specs.Bounds.{shown};

use crate::sum::have_same_sum;
use vital_base::Name;
use vital_nodes::{Direction, LiteralBounds};
use vital_structure::is_null;

/// The least number of a range that is not null.
pub fn least<'a>(bounds: LiteralBounds<'a>) -> &'a Name
    ensures { number result.now ≡ spec.least (range_of (shown bounds.entry)) }
{
    match bounds.direction {
        Direction::To => bounds.left,
        Direction::Downto => bounds.right,
    }
}

/// The greatest number of a range that is not null.
pub fn greatest<'a>(bounds: LiteralBounds<'a>) -> &'a Name
    ensures { number result.now ≡ spec.greatest (range_of (shown bounds.entry)) }
{
    match bounds.direction {
        Direction::To => bounds.right,
        Direction::Downto => bounds.left,
    }
}

/// Whether two ranges hold as many numbers, however many these are.
#[tactic(auto, using(crate::proofs::BoundLemmas::same_lengths, crate::proofs::BoundLemmas::null_lengths, crate::proofs::BoundLemmas::other_lengths))]
pub fn have_one_length(a: LiteralBounds<'_>, b: LiteralBounds<'_>) -> bool
    ensures { result ≡ (length_of (range_of (shown a.entry)) == length_of (range_of (shown b.entry))) }
{
    match (is_null(a), is_null(b)) {
        (false, false) => have_same_sum(greatest(a), least(b), greatest(b), least(a)),
        (true, true) => true,
        (true, false) | (false, true) => false,
    }
}
