ghost use Rattle.std.specs.Prelude.{◌≡◌};
ghost use Rattle.vital_logic.specs.Levels.{byte_of, level_of};

/// A level of a signal (IEEE 1164-1993, 4.1).
#[derive(Clone, Copy, Debug, PartialEq, Eq)]
pub enum Level {
    /// Uninitialized.
    U,
    /// Forcing unknown.
    X,
    /// Forcing 0.
    Zero,
    /// Forcing 1.
    One,
    /// High impedance.
    Z,
    /// Weak unknown.
    W,
    /// Weak 0.
    L,
    /// Weak 1.
    H,
    /// Don't care.
    Dash,
}

/// The level that a byte writes: one of `UX01ZWLH-`, where a letter may be small. None for any other byte.
pub fn from_byte(byte: u8) -> Option<Level>
    ensures { result ≡ level_of byte }
{
    match byte {
        b'U' | b'u' => Some(Level::U),
        b'X' | b'x' => Some(Level::X),
        b'0' => Some(Level::Zero),
        b'1' => Some(Level::One),
        b'Z' | b'z' => Some(Level::Z),
        b'W' | b'w' => Some(Level::W),
        b'L' | b'l' => Some(Level::L),
        b'H' | b'h' => Some(Level::H),
        b'-' => Some(Level::Dash),
        _ => None,
    }
}

/// The byte that a level is written with, one of `UX01ZWLH-`.
pub fn to_byte(level: Level) -> u8
    ensures { result ≡ byte_of level }
{
    match level {
        Level::U => b'U',
        Level::X => b'X',
        Level::Zero => b'0',
        Level::One => b'1',
        Level::Z => b'Z',
        Level::W => b'W',
        Level::L => b'L',
        Level::H => b'H',
        Level::Dash => b'-',
    }
}
