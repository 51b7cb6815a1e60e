//! What stands behind the digits of a quantity.
ghost use Rattle.std.specs.Prelude.{◌≡◌, [], ◌∷◌, codes};
ghost use Rattle.objects.specs.Suffix.{suffix_named, exponent, exponent_digits, power_of_ten, power_of_two};

use crate::digits::{behind_zeros, number_of, split_sign};
use crate::fault::QuantityFault;
use quant::are_digits;

// The most digits of an exponent, of which zeros in front are none.
const MAX_EXPONENT_DIGITS: usize = 2;

/// What the digits of a quantity are multiplied by: 10 to `tens` times 2 to `twos`, over 10 to
/// `tenths`. One of them at most isn't 0.
#[derive(Clone, Copy)]
pub(crate) struct Suffix {
    /// The power of ten over the fraction.
    pub tens: usize,
    /// The power of ten under the fraction.
    pub tenths: usize,
    /// The power of two over the fraction.
    pub twos: u32,
}

// The suffix that a text is.
pub(crate) fn suffix_named(text: &[u8]) -> Result<Suffix, QuantityFault>
    ensures { result ≡ suffix_named text.now }
{
    let [letter, rest @ ..] = text else {
        return Ok(power_of_ten(false, 0));
    };
    if rest.is_empty() {
        return letter_suffix(*letter);
    }
    if rest == b"i".as_slice() {
        return binary_suffix(*letter);
    }
    if *letter == b'e' || *letter == b'E' {
        read_exponent(rest)
    } else {
        Err(QuantityFault::NotAQuantity)
    }
}

// The suffix of one letter.
#[tactic(auto, unfolding(crate::specs::Suffix::suffix_named))]
fn letter_suffix(letter: u8) -> Result<Suffix, QuantityFault>
    ensures { result ≡ suffix_named (letter ∷ []) }
{
    match letter {
        b'n' => Ok(power_of_ten(true, 9)),
        b'u' => Ok(power_of_ten(true, 6)),
        b'm' => Ok(power_of_ten(true, 3)),
        b'k' => Ok(power_of_ten(false, 3)),
        b'M' => Ok(power_of_ten(false, 6)),
        b'G' => Ok(power_of_ten(false, 9)),
        b'T' => Ok(power_of_ten(false, 12)),
        b'P' => Ok(power_of_ten(false, 15)),
        b'E' => Ok(power_of_ten(false, 18)),
        _ => Err(QuantityFault::NotAQuantity),
    }
}

// The suffix of a letter and an `i`.
#[tactic(auto, unfolding(crate::specs::Suffix::suffix_named))]
fn binary_suffix(letter: u8) -> Result<Suffix, QuantityFault>
    ensures { result ≡ suffix_named (letter ∷ codes "i") }
{
    match letter {
        b'K' => Ok(power_of_two(10)),
        b'M' => Ok(power_of_two(20)),
        b'G' => Ok(power_of_two(30)),
        b'T' => Ok(power_of_two(40)),
        b'P' => Ok(power_of_two(50)),
        b'E' => Ok(power_of_two(60)),
        _ => Err(QuantityFault::NotAQuantity),
    }
}

// The power of ten that the text behind `e` or `E` tells.
fn read_exponent(text: &[u8]) -> Result<Suffix, QuantityFault>
    ensures { result ≡ exponent text.now }
{
    let (below_one, digits) = split_sign(text);
    if digits.is_empty() || !are_digits(digits) {
        return Err(QuantityFault::NotAQuantity);
    }
    let digits = behind_zeros(digits);
    if digits.len() > MAX_EXPONENT_DIGITS {
        return Err(QuantityFault::FarExponent);
    }
    Ok(power_of_ten(below_one, number_of(digits)))
}

// 10 to this power, or one over it.
pub(crate) fn power_of_ten(below_one: bool, power: usize) -> Suffix
    ensures { result ≡ power_of_ten below_one power }
{
    if below_one {
        return Suffix {
            tens: 0,
            tenths: power,
            twos: 0,
        };
    }
    Suffix {
        tens: power,
        tenths: 0,
        twos: 0,
    }
}

// 2 to this power.
fn power_of_two(power: u32) -> Suffix
    ensures { result ≡ power_of_two power }
{
    Suffix {
        tens: 0,
        tenths: 0,
        twos: power,
    }
}
