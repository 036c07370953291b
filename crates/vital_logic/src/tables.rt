//! The tables of the levels (IEEE 1164-1993, package body std_logic_1164). In each, the first operand is the row.

ghost use Rattle.std.specs.Prelude.{◌≡◌, ◌<◌, length, fold};
ghost use Rattle.vital_logic.specs.Tables.{and_table, entry, entry_at, not_table, or_table, resolution_table, resolved, ux01_table, x01_table, x01z_table, xor_table};

use crate::level::Level;

/// The result for a level in a row, which has one for each of U X 0 1 Z W L H - in this order.
macro_rules! entry {
    ($a:expr; $u:ident $x:ident $zero:ident $one:ident $z:ident $w:ident $l:ident $h:ident $dash:ident) => {
        match $a {
            Level::U => Level::$u,
            Level::X => Level::$x,
            Level::Zero => Level::$zero,
            Level::One => Level::$one,
            Level::Z => Level::$z,
            Level::W => Level::$w,
            Level::L => Level::$l,
            Level::H => Level::$h,
            Level::Dash => Level::$dash,
        }
    };
}

/// The result for two levels in a table, whose rows are each named by the first of them.
macro_rules! entry_at {
    ($a:expr, $b:expr; $($row:ident: $($result:ident)*;)*) => {
        match $a {
            $(Level::$row => entry!($b; $($result)*),)*
        }
    };
}

/// What two drivers of a signal give.
pub fn resolve2(a: Level, b: Level) -> Level
    ensures { result ≡ entry_at resolution_table a b }
{
    entry_at!(a, b;
        U: U U U U U U U U U;
        X: U X X X X X X X X;
        Zero: U X Zero X Zero Zero Zero Zero X;
        One: U X X One One One One One X;
        Z: U X Zero One Z W L H X;
        W: U X Zero One W W W W X;
        L: U X Zero One L W L W X;
        H: U X Zero One H W W H X;
        Dash: U X X X X X X X X;
    )
}

/// The `and` of two levels.
pub fn and2(a: Level, b: Level) -> Level
    ensures { result ≡ entry_at and_table a b }
{
    entry_at!(a, b;
        U: U U Zero U U U Zero U U;
        X: U X Zero X X X Zero X X;
        Zero: Zero Zero Zero Zero Zero Zero Zero Zero Zero;
        One: U X Zero One X X Zero One X;
        Z: U X Zero X X X Zero X X;
        W: U X Zero X X X Zero X X;
        L: Zero Zero Zero Zero Zero Zero Zero Zero Zero;
        H: U X Zero One X X Zero One X;
        Dash: U X Zero X X X Zero X X;
    )
}

/// The `or` of two levels.
pub fn or2(a: Level, b: Level) -> Level
    ensures { result ≡ entry_at or_table a b }
{
    entry_at!(a, b;
        U: U U U One U U U One U;
        X: U X X One X X X One X;
        Zero: U X Zero One X X Zero One X;
        One: One One One One One One One One One;
        Z: U X X One X X X One X;
        W: U X X One X X X One X;
        L: U X Zero One X X Zero One X;
        H: One One One One One One One One One;
        Dash: U X X One X X X One X;
    )
}

/// The `xor` of two levels.
pub fn xor2(a: Level, b: Level) -> Level
    ensures { result ≡ entry_at xor_table a b }
{
    entry_at!(a, b;
        U: U U U U U U U U U;
        X: U X X X X X X X X;
        Zero: U X Zero One X X Zero One X;
        One: U X One Zero X X One Zero X;
        Z: U X X X X X X X X;
        W: U X X X X X X X X;
        L: U X Zero One X X Zero One X;
        H: U X One Zero X X One Zero X;
        Dash: U X X X X X X X X;
    )
}

/// The `not` of a level.
pub fn not1(a: Level) -> Level
    ensures { result ≡ entry not_table a }
{
    entry!(a; U X One Zero X X One Zero X)
}

/// A level without its strength, as 0, 1 or X (To_X01).
pub fn to_x01(a: Level) -> Level
    ensures { result ≡ entry x01_table a }
{
    entry!(a; X X Zero One X X Zero One X)
}

/// A level without its strength, as 0, 1, X or Z (To_X01Z).
pub fn to_x01z(a: Level) -> Level
    ensures { result ≡ entry x01z_table a }
{
    entry!(a; X X Zero One Z X Zero One X)
}

/// A level without its strength, as 0, 1, X or U (To_UX01).
pub fn to_ux01(a: Level) -> Level
    ensures { result ≡ entry ux01_table a }
{
    entry!(a; U X Zero One X X Zero One X)
}

/// What the drivers of a signal give together, one value for each driver (function resolved). One value is itself.
pub fn resolve(values: &[Level]) -> Level
    requires { 0 < length values.now }
    ensures { result ≡ resolved values.now }
{
    match values {
        [value] => *value,
        _ => fold_from_z(values),
    }
}

/// What each value gives with those before it, from Z on.
fn fold_from_z(values: &[Level]) -> Level
    ensures { result ≡ fold (entry_at resolution_table) Level.Z values.now }
{
    values
        .iter()
        .fold(Level::Z, |so_far, value| resolve2(so_far, *value))
}
