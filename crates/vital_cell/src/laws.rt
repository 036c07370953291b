//! Laws of numbered steps, as functions whose contracts they are.

ghost use Rattle.vital_cell.specs.Laws.{KindsSuit, SlotsBegin, StepsKeepKinds, StepsStand};

/// The steps of a process do what its statements do: a law, called for its clause.
pub fn steps_stand()
    ensures { StepsStand }
{}

/// Variables hold what is of the same kinds after they are executed: a law, called for its clause.
pub fn steps_keep_kinds()
    ensures { StepsKeepKinds }
{}

/// Variables that hold what is of the same kinds suit the same statements: a law, called for its clause.
pub fn kinds_suit()
    ensures { KindsSuit }
{}

/// Variables begin as they are declared and as their checks ask: a law, called for its clause.
pub fn slots_begin()
    ensures { SlotsBegin }
{}
