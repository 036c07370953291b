//! The femtoseconds that numbers of an SDF file mean, however many digits they have.

ghost use Rattle.std.specs.Prelude.{◌≡◌, ◌≤◌};
ghost use Rattle.std.specs.Str.Parse.{starts_with_minus};
ghost use Rattle.vital_sdf_words.specs.Decimals.{femtoseconds};

use crate::reading::Reading;

/// The femtoseconds of a number of units that are worth ten to this power femtoseconds each: floor(v + 1/2) of the exact value v,
/// and no less than -2^60 and no more than 2^60. A number is an optional sign, and then digits, digits with `.` and digits, or `.`
/// and digits, however many (IEEE 1497).
pub fn femtoseconds(number: &[u8], power: u32) -> i64
    requires { power ≤ 17 }
    ensures { result ≡ femtoseconds number.now power }
{
    let mut reading = Reading::new(power);
    for byte in number {
        reading.read(*byte);
    }
    reading.rounded(is_negative(number))
}

fn is_negative(number: &[u8]) -> bool
    ensures { result ≡ starts_with_minus number.now }
{
    matches!(number, [b'-', ..])
}
