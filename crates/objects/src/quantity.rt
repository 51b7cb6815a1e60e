//! From a quantity to an amount.
ghost use Rattle.std.specs.Prelude.{◌≡◌, ◌+◌, ◌*◌, ◌^◌, ◌<◌, ◌≤◌, ◌++◌, ℕ, length, IfOk, IsTrue};
ghost use Rattle.std.specs.List.{list_all};
ghost use Rattle.quant.specs.Amount.{is_digit};
ghost use Rattle.objects.specs.Ratio.{rounded};
ghost use Rattle.objects.specs.Quantity.{quantity, worth, at_most, told_within, of_nothing, places, most};

use crate::digits::{
    BEYOND, are_zeros, number_in_front, rounded_behind, split_fraction, split_sign,
};
use crate::fault::QuantityFault;
use crate::resource::Resource;
use crate::suffix::{Suffix, power_of_ten, suffix_named};
use quant::split_digits;

/// Which way a fraction is rounded.
#[derive(Clone, Copy)]
pub(crate) enum Rounding {
    /// To the next greater whole number, as what is asked for is.
    Up,
    /// To the next lesser whole number, as what is there is.
    Down,
}

impl Rounding {
    // A tenth of a number.
    pub(crate) fn tenth(self, number: u64) -> u64
        ensures { result ≡ rounded self (record { over = number; under = 10 }) }
    {
        match self {
            Rounding::Up => number.div_ceil(10),
            Rounding::Down => number / 10,
        }
    }
}

// How much of a resource a text of the API spells.
//
// Errors: `NotAQuantity` where the text is no quantity, `FarExponent` where its exponent has more
// than two digits behind zeros in front and its other digits aren't all zeros, `Negative` below 0,
// and `TooLarge` above the most that a line can say, in this order. What is there of a resource,
// rounded down, is told as the most where it is more.
pub(crate) fn quantity(
    text: &[u8],
    resource: Resource,
    rounding: Rounding,
) -> Result<u64, QuantityFault>
    ensures value { result ≡ quantity rounding (places resource) (most resource) text.now }
    ensures bounded { IfOk result (λ amount. amount ≤ most resource) }
{
    read(text, rounding, resource.places(), resource.most())
}

// What a quantity comes to, rounded to so many decimal places.
#[tactic(auto, unfolding(crate::specs::Quantity::quantity))]
fn read(text: &[u8], rounding: Rounding, places: usize, most: u64) -> Result<u64, QuantityFault>
    requires places { places ≤ 3 }
    requires most { most < 10 ^ 15 }
    ensures { result ≡ quantity rounding places most text.now }
{
    let (minus, unsigned) = split_sign(text);
    let (whole, rest) = split_digits(unsigned);
    let (fraction, rest) = split_fraction(rest);
    if whole.is_empty() && fraction.is_empty() {
        return Err(QuantityFault::NotAQuantity);
    }
    let is_zero = are_zeros(whole) && are_zeros(fraction);
    let suffix = of_nothing(is_zero, suffix_named(rest))?;
    if minus && !is_zero {
        return Err(QuantityFault::Negative);
    }
    let amount = amount(whole, fraction, suffix, rounding, places, most);
    told_within(rounding, most, amount)
}

// The suffix of an amount: nothing is nothing, however far its exponent is.
fn of_nothing(
    is_nothing: bool,
    suffix: Result<Suffix, QuantityFault>,
) -> Result<Suffix, QuantityFault>
    ensures { result ≡ of_nothing is_nothing suffix }
{
    match suffix {
        Err(QuantityFault::FarExponent) if is_nothing => Ok(power_of_ten(false, 0)),
        suffix => suffix,
    }
}

// An amount as it is told that may be more than the most: of what is asked for no less may be told.
fn told_within(
    rounding: Rounding,
    most: u64,
    amount: Result<u64, QuantityFault>,
) -> Result<u64, QuantityFault>
    ensures { (n : ℕ) → amount ≡ at_most most n → result ≡ told_within rounding most n }
{
    match rounding {
        Rounding::Up => amount,
        Rounding::Down => Ok(amount.unwrap_or(most)),
    }
}

// What digits in front of a point and behind it are worth with a suffix.
fn amount(
    whole: &[u8],
    fraction: &[u8],
    suffix: Suffix,
    rounding: Rounding,
    places: usize,
    most: u64,
) -> Result<u64, QuantityFault>
    requires whole { IsTrue (list_all is_digit whole.now) }
    requires fraction { IsTrue (list_all is_digit fraction.now) }
    requires lengths { length whole.now + length fraction.now < 2 ^ 63 }
    requires tens { suffix.tens ≤ 99 }
    requires tenths { suffix.tenths ≤ 99 }
    requires twos { suffix.twos ≤ 60 }
    requires places { places ≤ 3 }
    requires most { most < 10 ^ 15 }
    ensures { result ≡ at_most most (rounded rounding (worth places whole.now fraction.now suffix)) }
{
    let units = 2u64.pow(suffix.twos);
    let up = suffix.tens + places;
    let down = fraction.len() + suffix.tenths;
    let in_front = (whole.len() + fraction.len() + up).saturating_sub(down);
    let behind = down.saturating_sub(up);
    let number = number_in_front(whole, fraction, in_front);
    let part = rounded_behind(whole, fraction, behind, units, rounding);
    total(number, units, part, most)
}

// So many units and a part of them together, where they are no more than they may be.
fn total(number: u64, units: u64, part: u64, most: u64) -> Result<u64, QuantityFault>
    ensures { result ≡ at_most most (number * units + part) }
{
    let Some(amount) = number.checked_mul(units) else {
        return Err(QuantityFault::TooLarge);
    };
    match amount.checked_add(part) {
        Some(amount) if amount <= most => Ok(amount),
        _ => Err(QuantityFault::TooLarge),
    }
}
