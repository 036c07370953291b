//! From where the parts of declarations see what is declared.

ghost use Rattle.std.specs.Prelude.{◌≡◌, Bool, None, Some, IfOk, unwrap_or, if◌then◌else◌};
ghost use Rattle.vital_names.specs.Viewpoints.{is_last, viewpoints};

use std::alloc::{AllocError, Global};
use vital_base::Place;
use vital_nodes::{Decl, HasPlace, Iface};

/// What may be declared together with others, with which it shares its parts.
pub trait DeclaredTogether: HasPlace {
    ghost last_is: { Self → Bool };

    /// Whether it is the last of those that are declared together.
    fn is_last(&self) -> bool
        ensures { result ≡ last_is self.now };
}

impl DeclaredTogether for Decl {
    ghost last_is = { is_last };

    fn is_last(&self) -> bool {
        match self {
            Decl::Object(object) => object.is_last,
            Decl::Attribute(_, _) | Decl::Specification(_) | Decl::Alias(_) | Decl::Component(_) =>
                true,
        }
    }
}

impl DeclaredTogether for Iface {
    ghost last_is = { λ i. i.is_last };

    fn is_last(&self) -> bool {
        self.is_last
    }
}

/// The viewpoints of declarations, one for each: the place of the first identifier that is declared together with it. What stands
/// in its parts sees only what is declared before that place.
pub fn viewpoints<T: DeclaredTogether>(
    alloc: Global,
    declarations: &[T],
) -> Result<Vec<Place>, AllocError>
    ensures { IfOk result (λ places. places.items ≡ viewpoints T.HasPlace.place_is T.last_is declarations.now) }
{
    let mut places = Vec::new(alloc);
    let mut begun = None;
    for declaration in declarations {
        let place = first_place(begun, declaration.place());
        places.push(place)?;
        begun = still_begun(place, declaration.is_last());
    }
    Ok(places)
}

/// The place of the first identifier, where one has begun or this one begins.
fn first_place(begun: Option<Place>, own: Place) -> Place
    ensures { result ≡ unwrap_or begun own }
{
    match begun {
        Some(first) => first,
        None => own,
    }
}

/// The place of the first identifier for the next one, unless this was the last.
fn still_begun(first: Place, is_last: bool) -> Option<Place>
    ensures { result ≡ (if is_last then None else Some first) }
{
    if is_last { None } else { Some(first) }
}
