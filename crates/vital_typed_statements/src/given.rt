//! The actuals of a call.

ghost use Rattle.std.specs.Prelude.{◌≡◌, ◌++◌, ◌&&◌, [], ◌∷◌, true, is_some, IfOk, OnOk};
ghost use Rattle.std.specs.List.{cons_option, filter_map};
ghost use Rattle.vital_actuals.specs.Actuals.{actual_of};
ghost use Rattle.vital_calls.specs.Formals as all_formals;
ghost use Rattle.vital_expr.specs.Outcomes.{map_typed};
ghost use Rattle.vital_expr.specs.Seen.{lent};
ghost use Rattle.vital_typed_statements.specs.Given as spec;

use std::alloc::{AllocError, Global};
use vital_actuals::{Actual, read_actual};
use vital_base::{Name, Place};
use vital_calls::{ActualForm, Formals, form_of, formal_name};
use vital_expr::Reader;
use vital_nodes::Item;

/// An actual that is of its form, and the name of its formal in lower case.
#[derive(Drop)]
pub struct GivenActual {
    pub formal: Name,
    pub actual: Actual,
}

/// The actuals of a call that are of their forms, and whether all are.
#[derive(Drop)]
pub struct GivenActuals {
    pub given: Vec<GivenActual>,
    pub are_all: bool,
}

/// A name of bytes.
fn name_of(alloc: Global, bytes: &[u8]) -> Result<Name, AllocError>
    ensures { IfOk result (λ name. name ≡ bytes.now) }
{
    Ok(Name::new(Vec::from_slice(alloc, bytes)?))
}

/// What an item gives for the formal of a name, which asks for a form.
fn read_given(
    reader: &Reader<'_>,
    formal: &[u8],
    form: ActualForm,
    item: &Item,
    broken: &mut Vec<Place>,
) -> Result<Option<GivenActual>, AllocError>
    ensures tree { IfOk result (λ given. given ≡ (map_typed (spec.given_as formal.now) (actual_of (lent reader.now) form item.now)).tree) }
    ensures places { OnOk result (broken.new.items ≡ broken.old.items ++ (map_typed (spec.given_as formal.now) (actual_of (lent reader.now) form item.now)).places) }
{
    match read_actual(reader, form, item, broken)? {
        Some(actual) => Ok(Some(GivenActual {
            formal: name_of(reader.alloc, formal)?,
            actual,
        })),
        None => Ok(None),
    }
}

impl GivenActuals {
    /// None yet.
    pub fn new(alloc: Global) -> GivenActuals
        ensures given { result.given.items ≡ [] }
        ensures all { result.are_all ≡ true }
    {
        GivenActuals {
            given: Vec::new(alloc),
            are_all: true,
        }
    }

    /// Puts what an item gives at the end.
    fn put(&mut self, given: Option<GivenActual>) -> Result<(), AllocError>
        ensures given { OnOk result (self.new.given.items ≡ self.old.given.items ++ cons_option given []) }
        ensures all { OnOk result (self.new.are_all ≡ (self.old.are_all && is_some given)) }
    {
        match given {
            Some(given) => self.given.push(given)?,
            None => self.are_all = false,
        }
        Ok(())
    }
}

/// Puts what an item gives for the formal of a name, which asks for a form, at the end.
fn put_actual(
    given: &mut GivenActuals,
    reader: &Reader<'_>,
    formal: &[u8],
    form: ActualForm,
    item: &Item,
    broken: &mut Vec<Place>,
) -> Result<(), AllocError>
    ensures given { OnOk result (given.new.given.items ≡ given.old.given.items ++ cons_option (map_typed (spec.given_as formal.now) (actual_of (lent reader.now) form item.now)).tree []) }
    ensures all { OnOk result (given.new.are_all ≡ (given.old.are_all && is_some (map_typed (spec.given_as formal.now) (actual_of (lent reader.now) form item.now)).tree)) }
    ensures places { OnOk result (broken.new.items ≡ broken.old.items ++ (map_typed (spec.given_as formal.now) (actual_of (lent reader.now) form item.now)).places) }
{
    let actual = read_given(reader, formal, form, item, broken)?;
    given.put(actual)
}

/// Puts what the item at a position of a call gives at the end, if it is for a formal.
fn put_given(
    given: &mut GivenActuals,
    reader: &Reader<'_>,
    formals: Formals,
    position: usize,
    item: &Item,
    broken: &mut Vec<Place>,
) -> Result<(), AllocError>
    ensures given { OnOk result (given.new.given.items ≡ given.old.given.items ++ spec.typed_ones (filter_map (spec.given_by (lent reader.now) (all_formals.lent formals)) ((position, item.now) ∷ []))) }
    ensures all { OnOk result (given.new.are_all ≡ (given.old.are_all && spec.are_all_typed (filter_map (spec.given_by (lent reader.now) (all_formals.lent formals)) ((position, item.now) ∷ [])))) }
    ensures places { OnOk result (broken.new.items ≡ broken.old.items ++ spec.broken_ones (filter_map (spec.given_by (lent reader.now) (all_formals.lent formals)) ((position, item.now) ∷ []))) }
{
    match form_of(formals, position, item) {
        Some(form) => match formal_name(formals, position, item) {
            Some(name) => put_actual(given, reader, name, form, item, broken),
            None => Ok(()),
        },
        None => Ok(()),
    }
}

/// What all items of a call give, in their order. It takes time in proportion to the items.
pub fn read_all_given(
    reader: &Reader<'_>,
    formals: Formals,
    items: &[Item],
    broken: &mut Vec<Place>,
) -> Result<GivenActuals, AllocError>
    ensures given { IfOk result (λ all. all.given.items ≡ spec.typed_ones (spec.all_given (lent reader.now) (all_formals.lent formals) items.now)) }
    ensures all { IfOk result (λ all. all.are_all ≡ spec.are_all_typed (spec.all_given (lent reader.now) (all_formals.lent formals) items.now)) }
    ensures places { OnOk result (broken.new.items ≡ broken.old.items ++ spec.broken_ones (spec.all_given (lent reader.now) (all_formals.lent formals) items.now)) }
{
    let mut given = GivenActuals::new(reader.alloc);
    for (position, item) in items.iter().enumerate() {
        put_given(&mut given, reader, formals, position, item, broken)?;
    }
    Ok(given)
}
