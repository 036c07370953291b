ghost use Rattle.std.specs.Prelude.{◌≡◌, true, false};
ghost use Rattle.vital_logic.specs.declared.level.Level.{Level};
ghost use Rattle.vital_agenda.specs.Queues.{stays};

use crate::transaction::Transaction;
use vital_base::Time;
use vital_logic::{Level, to_byte};

/// Which of a driver's transactions stay, from the last one back to the first that does not.
#[derive(Clone, Copy)]
pub(crate) enum Stay {
    /// Those after a time.
    After(Time),
    /// Those at a time or after it.
    From(Time),
    /// Those of a value.
    Same(Level),
}

impl Stay {
    /// Is there a value with which a transaction at this time stays?
    pub(crate) fn allows(self, time: Time) -> bool
        ensures some { result ≡ true → (value : Level) × (stays self (record { time = time; value = value }) ≡ true) }
        ensures none { result ≡ false → (value : Level) → stays self (record { time = time; value = value }) ≡ false }
    {
        match self {
            Stay::After(after) => after < time,
            Stay::From(from) => from <= time,
            Stay::Same(_) => true,
        }
    }

    /// Does this transaction stay?
    pub(crate) fn holds(self, transaction: Transaction) -> bool
        ensures { result ≡ stays self transaction }
    {
        match self {
            Stay::After(time) => time < transaction.time,
            Stay::From(time) => time <= transaction.time,
            Stay::Same(value) => to_byte(transaction.value) == to_byte(value),
        }
    }
}
