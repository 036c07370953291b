//! How the items of a call are matched to formals.

ghost use Rattle.std.specs.Prelude.{◌≡◌};
ghost use Rattle.std.specs.List.{list_all};
ghost use Rattle.std.specs.Option.{option_copied, option_map};
ghost use Rattle.vital_calls.specs.Formals.{all_lent, formal_lent, lent};
ghost use Rattle.vital_calls.specs.Matching as spec;

use crate::actual_form::ActualForm;
use crate::formal::{Formal, Formals};
use vital_nodes::{Choice, Item, formal, identifier_of};

/// Whether the items of a call are wrong for formals (IEEE 1076-1993, 4.3.2.2): one is for no formal, two are for the same one, one
/// that is required has none, an item by its position stands behind one with a name, or levels are not given all by their
/// positions. It takes time in proportion to the items.
#[tactic(auto, unfolding(crate::specs::Matching::has_wrong_formals))]
pub fn has_wrong_formals(formals: Formals, items: &[Item]) -> bool
    ensures { result ≡ spec.has_wrong_formals (lent formals) items.now }
{
    match formals {
        Formals::Levels(count) => !are_by_position(count, items),
        Formals::PositionsOrNames(_) => {
            has_late_position(items) || are_mismatched(formals, items)
        }
        Formals::Names(_) => are_mismatched(formals, items),
    }
}

/// The first item of a call that is for the formal of a name: by its position, where positions are allowed, or by the name. Names
/// are as identifiers keep them.
#[tactic(auto, unfolding(crate::specs::Matching::actual_of))]
pub fn actual_of<'a>(items: &'a [Item], formals: Formals, name: &[u8]) -> Option<&'a Item>
    ensures { option_copied result ≡ spec.actual_of items.now (lent formals) name.now }
{
    for (position, item) in items.iter().enumerate() {
        if is_for(name, formals, position, item) {
            return Some(item);
        }
    }
    None
}

/// What the item at a position of a call, from 0, must be, if it is for a formal.
#[tactic(auto, unfolding(crate::specs::Matching::form_of))]
pub fn form_of(formals: Formals, position: usize, item: &Item) -> Option<ActualForm>
    ensures { result ≡ spec.form_of (lent formals) position item.now }
{
    match formals {
        Formals::Levels(count) => {
            if is_positional(item) && position < count {
                Some(ActualForm::Level)
            } else {
                None
            }
        }
        Formals::PositionsOrNames(_) | Formals::Names(_) => {
            formal_of(formals, position, item).map(|formal| formal.form)
        }
    }
}

/// Whether an item comes by its position: a value, a range or `open`.
#[inline(always)]
#[tactic(auto, unfolding(crate::specs::Matching::is_positional))]
fn is_positional(item: &Item) -> bool
    ensures { result ≡ spec.is_positional item.now }
{
    match item {
        Item::Positional(_) | Item::Open(_) => true,
        Item::Named(_) | Item::Others(_, _) => false,
    }
}

/// Whether there are so many items, all by their positions.
fn are_by_position(count: usize, items: &[Item]) -> bool
    ensures { result ≡ spec.are_by_position count items.now }
{
    items.len() == count && are_all_by_position(items)
}

/// Whether all items come by their positions.
fn are_all_by_position(items: &[Item]) -> bool
    ensures { result ≡ list_all spec.is_positional items.now }
{
    items.iter().all(is_positional)
}

/// Whether an item by its position stands behind one that is not.
fn has_late_position(items: &[Item]) -> bool
    ensures { result ≡ spec.has_late_position items.now }
{
    items
        .iter()
        .skip_while(|item| is_positional(item))
        .any(is_positional)
}

/// The name before `=>`, where it is a plain identifier.
#[inline(always)]
fn name_of(item: &Item) -> Option<&[u8]>
    ensures { option_copied result ≡ spec.name_of item.now }
{
    let Some(Choice::Value(value)) = formal(item) else {
        return None;
    };
    match identifier_of(value) {
        Some(identifier) => Some(identifier.name.as_slice()),
        None => None,
    }
}

/// The name of the formal at a position, or else the name before `=>`.
#[inline(always)]
fn name_at<'a>(formals: &'a [Formal], position: usize, item: &'a Item) -> Option<&'a [u8]>
    ensures { option_copied result ≡ spec.name_at (all_lent formals.now) position item.now }
{
    if is_positional(item) {
        match formals.get(position) {
            Some(formal) => Some(formal.name),
            None => None,
        }
    } else {
        name_of(item)
    }
}

/// The name of the formal that the item at a position of a call, from 0, is for, if it is for one.
#[inline(always)]
#[tactic(auto, unfolding(crate::specs::Matching::formal_name))]
pub fn formal_name(formals: Formals, position: usize, item: &Item) -> Option<&[u8]>
    ensures { option_copied result ≡ spec.formal_name (lent formals) position item.now }
{
    match formals {
        Formals::Levels(_) => None,
        Formals::PositionsOrNames(formals) => name_at(formals, position, item),
        Formals::Names(_) => name_of(item),
    }
}

/// Whether the item at a position is for the formal of a name.
#[inline(always)]
fn is_for(name: &[u8], formals: Formals, position: usize, item: &Item) -> bool
    ensures { result ≡ spec.is_for name.now (lent formals) position item.now }
{
    match formal_name(formals, position, item) {
        Some(formal) => formal == name,
        None => false,
    }
}

/// The formals that have names.
fn formals_in(formals: Formals) -> &'static [Formal]
    ensures { all_lent result.now ≡ spec.formals_in (lent formals) }
{
    match formals {
        Formals::Levels(_) => &[],
        Formals::PositionsOrNames(formals) | Formals::Names(formals) => formals,
    }
}

/// The first formal of a name.
fn named<'a>(name: &[u8], formals: &'a [Formal]) -> Option<&'a Formal>
    ensures { option_map (λ f. formal_lent f.now) result ≡ spec.named name.now (all_lent formals.now) }
{
    for formal in formals {
        if formal.name == name {
            return Some(formal);
        }
    }
    None
}

/// The formal that the item at a position is for.
fn formal_of(formals: Formals, position: usize, item: &Item) -> Option<&'static Formal>
    ensures { option_map (λ f. formal_lent f.now) result ≡ spec.formal_of (lent formals) position item.now }
{
    match formal_name(formals, position, item) {
        Some(name) => named(name, formals_in(formals)),
        None => None,
    }
}

/// Whether an item is for no formal, or a formal has too many items or too few.
fn are_mismatched(formals: Formals, items: &[Item]) -> bool
    ensures { result ≡ spec.are_mismatched (lent formals) items.now }
{
    has_unknown(formals, items) || has_wrong_count(formals, items)
}

/// Whether an item is for no formal.
fn has_unknown(formals: Formals, items: &[Item]) -> bool
    ensures { result ≡ spec.has_unknown (lent formals) items.now }
{
    items.iter().enumerate().any(|(position, item)| formal_of(formals, position, item).is_none())
}

/// Whether a formal has two items or more, or none where it is required.
fn has_wrong_count(formals: Formals, items: &[Item]) -> bool
    ensures { result ≡ spec.has_wrong_count (lent formals) items.now }
{
    let all = formals_in(formals);
    for formal in all {
        let count = count_for(formal.name, formals, items);
        if is_wrong_count(formal, count) {
            return true;
        }
    }
    false
}

/// Whether so many items for a formal are two or more, or none where it is required.
fn is_wrong_count(formal: &Formal, count: usize) -> bool
    ensures { result ≡ spec.is_wrong_count (formal_lent formal.now) count }
{
    count > 1 || (formal.is_required && count == 0)
}

/// How many items are for the formal of a name.
fn count_for(name: &[u8], formals: Formals, items: &[Item]) -> usize
    ensures { result ≡ spec.count_for name.now (lent formals) items.now }
{
    let mut count = 0;
    for (position, item) in items.iter().enumerate() {
        if is_for(name, formals, position, item) {
            count += 1;
        }
    }
    count
}
