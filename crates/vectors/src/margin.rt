// The margin of a line, the last word before its arrow: the float's bits as sixteen hexadecimal digits, or `off`. A line may leave it out, which is off.
ghost use Rattle.std.specs.Prelude.{◌≡◌};
ghost use Rattle.std.specs.Float.{binary64};
ghost use Rattle.std.specs.Float.Ieee.{of_bits};
ghost use Rattle.vectors.specs.Margins.{BitsOf, MarginOf};

use crate::line;
use line::{Line, Unreadable};

// An infinity's bits without the sign. A NaN's are above them.
const INFINITY: u64 = 0x7FF0000000000000;

// The weight of the sign.
const SIGN: u64 = 0x8000000000000000;

// The number that sixteen digits spell.
fn bits_of(digits: &[u8]) -> Result<u64, Unreadable>
    ensures { BitsOf digits.now result }
{
    if digits.len() != 16 {
        return Err(Unreadable);
    }
    let mut n: u64 = 0;
    for b in digits {
        n = n * 16 + line::hex_value(*b)? as u64;
    }
    Ok(n)
}

// The float whose bits are n. `from_bits` takes no NaN's: they all give the same NaN.
fn float_of(n: u64) -> f64
    ensures { result ≡ of_bits binary64 n }
{
    if INFINITY < n % SIGN {
        return 0.0 / 0.0;
    }
    f64::from_bits(n)
}

// The margin that sixteen digits spell.
fn margin_of(digits: &[u8]) -> Result<Option<f64>, Unreadable>
    ensures { MarginOf digits.now result }
{
    Ok(Some(float_of(bits_of(digits)?)))
}

// `[MARGIN] =>`. No margin is off.
pub fn read(line: &mut Line<'_>) -> Result<Option<f64>, Unreadable> {
    if line.skip(b"=>") {
        return Ok(None);
    }
    let margin = if line.skip(b"off") {
        None
    } else {
        margin_of(line.word()?)?
    };
    line.expect(b"=>")?;
    Ok(margin)
}
