ghost use Rattle.std.specs.Prelude.{◌≡◌, ◌≤◌, IfOk};
ghost use Rattle.vital_ll.specs.Choice.{IsWellFormed};
ghost use Rattle.vital_ll.specs.Listing.{ListsSteps, ListsPlaces};
ghost use Rattle.vital_ll.specs.Passes.{FollowsFrom, NullableMasks, FirstMasks, ReachedMasks, FollowMasks};

use crate::derivation::Step;
use crate::grammar::RuleList;
use crate::listing::Place;
use crate::marks::saturated;
use crate::passes::{EmptyPass, FirstPass, FollowPass, ReachPass};
use std::alloc::{AllocError, Global};

/// Which rules can be empty: all bits or none.
pub(crate) fn nullable_masks(
    alloc: Global,
    rules: &RuleList,
    steps: &[Step],
) -> Result<Vec<u128>, AllocError>
    requires well_formed { IsWellFormed rules.now }
    requires steps { ListsSteps rules.now steps.now }
    ensures { IfOk result (λ masks. NullableMasks rules.now masks.items) }
{
    let none = vec![in alloc; 0u128; rules.len()]?;
    Ok(saturated(&EmptyPass { rules, steps }, none))
}

/// The tokens with which each rule can begin, of those whose bits begin at bit `base`.
pub(crate) fn first_masks(
    alloc: Global,
    rules: &RuleList,
    steps: &[Step],
    base: usize,
    nullable: &[u128],
) -> Result<Vec<u128>, AllocError>
    requires well_formed { IsWellFormed rules.now }
    requires steps { ListsSteps rules.now steps.now }
    requires nullable { NullableMasks rules.now nullable.now }
    ensures { IfOk result (λ masks. FirstMasks rules.now nullable.now base masks.items) }
{
    let none = vec![in alloc; 0u128; rules.len()]?;
    let pass = FirstPass {
        rules,
        steps,
        base,
        nullable,
    };
    Ok(saturated(&pass, none))
}

/// Which rules stand in some sentential form: all bits or none.
pub(crate) fn reached_masks(
    alloc: Global,
    rules: &RuleList,
    steps: &[Step],
    places: &[Place],
) -> Result<Vec<u128>, AllocError>
    requires well_formed { IsWellFormed rules.now }
    requires steps { ListsSteps rules.now steps.now }
    requires places { ListsPlaces rules.now steps.now places.now }
    ensures { IfOk result (λ masks. ReachedMasks rules.now masks.items) }
{
    let mut first = vec![in alloc; 0u128; rules.len()]?;
    first[0] = u128::MAX;
    let pass = ReachPass {
        rules,
        steps,
        places,
    };
    Ok(saturated(&pass, first))
}

/// The tokens that follow each rule in some sentence. The end, whose bit is 0, follows the first rule.
pub(crate) fn follow_masks(alloc: Global, pass: &FollowPass) -> Result<Vec<u128>, AllocError>
    requires steps { ListsSteps pass.now.rules.now pass.now.steps.now }
    requires valid { FollowsFrom pass.now.rules.now pass.now.steps.now pass.now.places.now pass.now.base pass.now.nullable.now pass.now.first.now pass.now.reached.now }
    ensures { IfOk result (λ masks. FollowMasks pass.now.rules.now pass.now.nullable.now pass.now.first.now pass.now.reached.now pass.now.base masks.items) }
{
    let mut start = vec![in alloc; 0u128; pass.rules.len()]?;
    start[0] = u128::from(pass.base == 0);
    Ok(saturated(pass, start))
}
