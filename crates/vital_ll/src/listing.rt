ghost use Rattle.std.specs.Prelude.{◌≡◌, ◌≤◌, ◌<◌, ◌++◌, length, IfOk, OnOk, All};
ghost use Rattle.vital_ll.specs.Choice.{IsWellFormed};
ghost use Rattle.vital_ll.specs.Listing.{IsStepOf, ListsSteps, ListsPlaces, steps_of, places_of};

use crate::derivation::Step;
use crate::grammar::RuleList;
use std::alloc::{AllocError, Global};

/// A symbol of an alternative, from 0.
#[derive(Clone, Copy)]
pub(crate) struct Place {
    pub(crate) step: Step,
    pub(crate) symbol: usize,
}

/// Appends the first `count` alternatives of a rule.
fn push_steps(steps: &mut Vec<Step>, rule: u16, count: u16) -> Result<(), AllocError>
    ensures { OnOk result (steps.new.items ≡ steps.old.items ++ steps_of rule count) }
{
    for alternative in 0..count {
        steps.push(Step { rule, alternative })?;
    }
    Ok(())
}

/// Each alternative of each rule.
pub(crate) fn steps(alloc: Global, rules: &RuleList) -> Result<Vec<Step>, AllocError>
    requires { IsWellFormed rules.now }
    ensures { IfOk result (λ steps. ListsSteps rules.now steps.items) }
{
    let mut steps = Vec::new(alloc);
    for rule in 0..rules.len() {
        push_steps(
            &mut steps,
            rule as u16,
            rules.alternative_count(rule) as u16,
        )?;
    }
    Ok(steps)
}

/// Each alternative of each rule, those of the last rule first: what is found of a rule mostly rests on rules that come
/// after it.
pub(crate) fn steps_backward(alloc: Global, rules: &RuleList) -> Result<Vec<Step>, AllocError>
    requires { IsWellFormed rules.now }
    ensures { IfOk result (λ steps. ListsSteps rules.now steps.items) }
{
    let mut steps = Vec::new(alloc);
    let mut rule = rules.len();
    while rule > 0 {
        rule -= 1;
        let count = rules.alternative_count(rule) as u16;
        push_steps(&mut steps, rule as u16, count)?;
    }
    Ok(steps)
}

/// Appends the first `count` symbols of an alternative.
fn push_places(places: &mut Vec<Place>, step: Step, count: usize) -> Result<(), AllocError>
    ensures { OnOk result (places.new.items ≡ places.old.items ++ places_of step count) }
{
    for symbol in 0..count {
        places.push(Place { step, symbol })?;
    }
    Ok(())
}

/// Each symbol of each of these alternatives.
pub(crate) fn places(
    alloc: Global,
    rules: &RuleList,
    steps: &[Step],
) -> Result<Vec<Place>, AllocError>
    requires { All (IsStepOf rules.now) steps.now }
    ensures { IfOk result (λ places. ListsPlaces rules.now steps.now places.items) }
{
    let mut places = Vec::new(alloc);
    for step in steps {
        push_places(
            &mut places,
            *step,
            rules.symbols(step.rule, step.alternative).len(),
        )?;
    }
    Ok(places)
}
