//! The digits of a quantity, and the sign and the point beside them.
ghost use Rattle.std.specs.Prelude.{◌≡◌, ℕ, ◌+◌, ◌*◌, ◌-◌, ◌^◌, ◌<◌, ◌≤◌, ◌++◌, length, min, IsTrue};
ghost use Rattle.std.specs.List.{list_all};
ghost use Rattle.quant.specs.Amount.{is_digit, number};
ghost use Rattle.objects.specs.Ratio.{rounded};
ghost use Rattle.objects.specs.Suffix.{has_minus, after_sign, behind_zeros};
ghost use Rattle.objects.specs.Quantity.{fraction_digits, after_fraction, is_zero};
ghost use Rattle.objects.specs.inside.Digits.{digit, front, back};

use crate::quantity::Rounding;
use quant::split_digits;

// Above every limit: what is counted no further.
pub(crate) const BEYOND: u64 = 1_000_000_000_000_000;

// Cuts a sign off in front, and says whether it is a minus.
pub(crate) fn split_sign(text: &[u8]) -> (bool, &[u8])
    ensures minus { result.0 ≡ has_minus text.now }
    ensures rest { result.1.now ≡ after_sign text.now }
{
    match text {
        [b'-', rest @ ..] => (true, rest),
        [b'+', rest @ ..] => (false, rest),
        _ => (false, text),
    }
}

// Cuts a text behind a decimal point in front and the digits behind it.
pub(crate) fn split_fraction(text: &[u8]) -> (&[u8], &[u8])
    ensures digits { result.0.now ≡ fraction_digits text.now }
    ensures rest { result.1.now ≡ after_fraction text.now }
    ensures pass { IsTrue (list_all is_digit result.0.now) }
{
    match text {
        [b'.', behind @ ..] => split_digits(behind),
        _ => (&[], text),
    }
}

// Whether the text has no byte but zeros.
pub(crate) fn are_zeros(text: &[u8]) -> bool
    ensures { result ≡ is_zero text.now }
{
    for byte in text {
        if *byte != b'0' {
            return false;
        }
    }
    true
}

// Digits but for the zeros in front of them.
pub(crate) fn behind_zeros(digits: &[u8]) -> &[u8]
    requires { IsTrue (list_all is_digit digits.now) }
    ensures digits { result.now ≡ behind_zeros digits.now }
    ensures pass { IsTrue (list_all is_digit result.now) }
{
    let mut rest = digits;
    while let [b'0', more @ ..] = rest {
        rest = more;
    }
    rest
}

// The number that up to two digits spell.
pub(crate) fn number_of(digits: &[u8]) -> usize
    requires digits { IsTrue (list_all is_digit digits.now) }
    requires few { length digits.now ≤ 2 }
    ensures { result ≡ number digits.now }
{
    match digits {
        [tens, ones] => usize::from(*tens - b'0') * 10 + usize::from(*ones - b'0'),
        [ones] => usize::from(*ones - b'0'),
        [] => 0,
        _ => unreachable!(),
    }
}

// The digit at a place of the digits in front of a point and behind it, and 0 past them.
fn digit_at(whole: &[u8], fraction: &[u8], place: usize) -> u64
    requires whole { IsTrue (list_all is_digit whole.now) }
    requires fraction { IsTrue (list_all is_digit fraction.now) }
    ensures value { result ≡ digit (whole.now ++ fraction.now) place }
    ensures bounded { result ≤ 9 }
{
    if place < whole.len() {
        return u64::from(whole[place] - b'0');
    }
    let place = place - whole.len();
    if place < fraction.len() {
        return u64::from(fraction[place] - b'0');
    }
    0
}

// The digit so many places before the last of the digits in front of a point and behind it, and 0
// in front of the first.
#[tactic(auto, using(crate::proofs::Places::back_digit, crate::proofs::Places::back_no_digit))]
fn digit_from_end(whole: &[u8], fraction: &[u8], place: usize) -> u64
    requires whole { IsTrue (list_all is_digit whole.now) }
    requires fraction { IsTrue (list_all is_digit fraction.now) }
    requires lengths { length whole.now + length fraction.now < 2 ^ 64 }
    ensures value { let digits = whole.now ++ fraction.now in
        back digits (place + 1) ≡ result * 10 ^ place + back digits place }
    ensures bounded { result ≤ 9 }
{
    let count = whole.len() + fraction.len();
    if place < count {
        digit_at(whole, fraction, count - 1 - place)
    } else {
        0
    }
}

// The number that the first digits spell, with zeros behind them where there are no more, or
// `BEYOND`, if that is less.
pub(crate) fn number_in_front(whole: &[u8], fraction: &[u8], places: usize) -> u64
    requires whole { IsTrue (list_all is_digit whole.now) }
    requires fraction { IsTrue (list_all is_digit fraction.now) }
    ensures { result ≡ min (front (whole.now ++ fraction.now) places) BEYOND }
{
    let mut number = 0;
    for place in 0..places {
        number = (number * 10 + digit_at(whole, fraction, place)).min(BEYOND);
    }
    number
}

// What the last digits come to behind a point, so many of them, with zeros in front of them where
// there are no more, of so many units, rounded.
pub(crate) fn rounded_behind(
    whole: &[u8],
    fraction: &[u8],
    places: usize,
    units: u64,
    rounding: Rounding,
) -> u64
    requires whole { IsTrue (list_all is_digit whole.now) }
    requires fraction { IsTrue (list_all is_digit fraction.now) }
    requires lengths { length whole.now + length fraction.now < 2 ^ 64 }
    requires units { units ≤ 2 ^ 60 }
    ensures value { result ≡ rounded rounding
        (record { over = back (whole.now ++ fraction.now) places * units; under = 10 ^ places }) }
    ensures bounded { result ≤ units }
{
    let mut amount = 0;
    for place in 0..places {
        let digit = digit_from_end(whole, fraction, place);
        amount = rounding.tenth(digit * units + amount);
    }
    amount
}
