//! From where statements see names.

ghost use Rattle.std.specs.Prelude.{◌≡◌};
ghost use Rattle.std.specs.Option.{option_copied};
ghost use Rattle.vital_names.specs.Sites as sites;
ghost use Rattle.vital_statements.specs.Sites.{site_at};

use vital_base::Place;
use vital_names::{CellUnit, ProcessNames, Site};

/// Where something stands in a statement of an architecture, or of a process of it: it sees what is declared before it.
pub fn site_at<'a>(process: Option<&'a ProcessNames<'a>>, place: Place) -> Site<'a>
    ensures { sites.lent result ≡ site_at (option_copied process.entry) place }
{
    Site {
        unit: CellUnit::Architecture,
        process,
        viewpoint: place,
    }
}
