//! Delays and their types.

ghost use Rattle.std.specs.Prelude.{◌≡◌};
ghost use Rattle.vital_timing.specs.Delays.{time_count, type_of};

use vital_base::Time;

/// A type of delays (IEEE 1076.4, package VITAL_Timing).
#[derive(Clone, Copy, Debug, PartialEq, Eq)]
pub enum DelayType {
    /// VitalDelayType: one time.
    One,
    /// VitalDelayType01: a time for each of two changes.
    Two,
    /// VitalDelayType01Z: a time for each of six changes.
    Six,
}

/// A delay: the times that changes take, in femtoseconds. Each time has the name of its change in IEEE 1076.4
/// (VitalTransitionType): the value before it, and then the value after it.
#[derive(Clone, Copy, Debug, PartialEq, Eq)]
pub enum Delay {
    /// One time for every change.
    One(Time),
    /// A time for the change to 1, and one for the change to 0.
    Two {
        tr01: Time,
        tr10: Time,
    },
    /// A time for each change between 0, 1 and Z.
    Six {
        tr01: Time,
        tr10: Time,
        tr0z: Time,
        trz1: Time,
        tr1z: Time,
        trz0: Time,
    },
}

impl DelayType {
    /// How many times a delay of the type has.
    pub fn time_count(self) -> usize
        ensures { result ≡ time_count self }
    {
        match self {
            DelayType::One => 1,
            DelayType::Two => 2,
            DelayType::Six => 6,
        }
    }
}

impl Delay {
    /// The type of the delay.
    pub fn delay_type(self) -> DelayType
        ensures { result ≡ type_of self }
    {
        match self {
            Delay::One(_) => DelayType::One,
            Delay::Two { .. } => DelayType::Two,
            Delay::Six { .. } => DelayType::Six,
        }
    }
}
