//! Where actuals stand.

ghost use Rattle.std.specs.Prelude.{◌≡◌};
ghost use Rattle.vital_drivers.specs.Actuals as spec;

use vital_base::Place;
use vital_nodes::{Actual, HasPlace, Item};

/// Where the actual of an item stands: behind `=>`, or where the item stands.
pub fn place_of_actual(item: &Item) -> Place
    ensures { result ≡ spec.place_of_actual item.now }
{
    match item {
        Item::Others(_, value) => value.get().place(),
        Item::Named(association) => place_behind_arrow(&association.get().actual),
        Item::Positional(_) | Item::Open(_) => item.place(),
    }
}

/// Where an actual behind `=>` stands: at its expression, or at `open`.
fn place_behind_arrow(actual: &Actual) -> Place
    ensures { result ≡ spec.place_behind_arrow actual.now }
{
    match actual {
        Actual::Value(value) => value.place(),
        Actual::Open(place) => *place,
    }
}
