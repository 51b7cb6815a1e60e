//! How amounts are spelled, after the Kubernetes page "Quantity": decimal digits, with a
//! fraction or a suffix behind them.
ghost use Rattle.std.specs.Prelude.{◌≡◌, ℕ, ◌↔◌, ◌^◌, ◌<◌, ◌≤◌, length, if◌then◌else◌, IfOk, IsTrue, Ok, Err, Some};
ghost use Rattle.std.specs.List.{list_all, prefix_len};
ghost use Rattle.quant.specs.Grammar.{SpellsCpu, SpellsBytes};
ghost use Rattle.quant.specs.Amount.{is_digit, is_digits, number, leading_digits, after_digits, thousandths};
ghost use Rattle.quant.specs.Amount.{cpu_spelled, cpu_read, unit_of, bytes_spelled, bytes_read};

use crate::amount::{Bytes, Cpu};
use crate::fault::QuantFault;
use crate::limits::{MAX_CPU, MAX_MEM};

// The most digits of an amount, and of the fraction behind its decimal point.
const MAX_DIGITS: usize = 15;

const MAX_FRACTION: usize = 3;

/// The amount of CPU that a text spells: `D`, `D.F` or `Dm`, with `D` of 1 to 15 decimal digits
/// and `F` of 1 to 3. `0.5` and `500m` are half a core.
///
/// Errors: `BadQuantity` where the text is none of these, and else `TooLarge` where the amount is
/// above 2^30 thousandths of a core.
#[tactic(auto, unfolding(crate::specs::Amount::cpu_read))]
pub fn read_cpu(text: &[u8]) -> Result<Cpu, QuantFault>
    ensures value { result ≡ cpu_read text.now }
    ensures grammar { (n : ℕ) → (SpellsCpu text.now n ↔ (cpu_spelled text.now ≡ Some n)) }
    ensures bounded { IfOk result (λ cpu. cpu.0 ≤ 2 ^ 30) }
{
    let (digits, rest) = split_digits(text);
    let whole = read_number(digits, MAX_DIGITS)?;
    let amount = match rest {
        [] => whole * 1_000,
        b"m" => whole,
        [b'.', fraction @ ..] => whole * 1_000 + read_fraction(fraction)?,
        _ => return Err(QuantFault::BadQuantity),
    };
    if amount > MAX_CPU {
        return Err(QuantFault::TooLarge);
    }
    Ok(Cpu(amount))
}

/// The amount of memory that a text spells: 1 to 15 decimal digits with no suffix (bytes), or
/// with one of `k`, `M`, `G`, `T` (powers of 1,000) or `Ki`, `Mi`, `Gi`, `Ti` (powers of 1,024).
///
/// Errors: `BadQuantity` where the text is none of these, and else `TooLarge` where the amount is
/// above 2^44 bytes.
#[tactic(auto, unfolding(crate::specs::Amount::bytes_read))]
pub fn read_bytes(text: &[u8]) -> Result<Bytes, QuantFault>
    ensures value { result ≡ bytes_read text.now }
    ensures grammar { (n : ℕ) → (SpellsBytes text.now n ↔ (bytes_spelled text.now ≡ Some n)) }
    ensures bounded { IfOk result (λ mem. mem.0 ≤ 2 ^ 44) }
{
    let (digits, suffix) = split_digits(text);
    let count = read_number(digits, MAX_DIGITS)?;
    let Some(unit) = unit(suffix) else {
        return Err(QuantFault::BadQuantity);
    };
    match count.checked_mul(unit) {
        Some(amount) if amount <= MAX_MEM => Ok(Bytes(amount)),
        _ => Err(QuantFault::TooLarge),
    }
}

// How many bytes the unit with this suffix is.
fn unit(suffix: &[u8]) -> Option<u64>
    ensures { result ≡ unit_of suffix.now }
{
    match suffix {
        [] => Some(1),
        b"k" => Some(1_000),
        b"M" => Some(1_000_000),
        b"G" => Some(1_000_000_000),
        b"T" => Some(1_000_000_000_000),
        b"Ki" => Some(1 << 10),
        b"Mi" => Some(1 << 20),
        b"Gi" => Some(1 << 30),
        b"Ti" => Some(1 << 40),
        _ => None,
    }
}

// The thousandths that the text behind a decimal point spells.
fn read_fraction(text: &[u8]) -> Result<u64, QuantFault>
    ensures value { IfOk result (λ n. n ≡ thousandths text.now) }
    ensures bounded { IfOk result (λ n. n < 1000) }
    ensures digits { result ≡
        (if is_digits 3 text.now then Ok (thousandths text.now) else Err QuantFault.BadQuantity) }
{
    if !are_digits(text) {
        return Err(QuantFault::BadQuantity);
    }
    let value = read_number(text, MAX_FRACTION)?;
    Ok(match text.len() {
        1 => value * 100,
        2 => value * 10,
        _ => value,
    })
}

/// Cuts a text behind the digits in front.
pub fn split_digits(text: &[u8]) -> (&[u8], &[u8])
    ensures digits { result.0.now ≡ leading_digits text.now }
    ensures rest { result.1.now ≡ after_digits text.now }
    ensures pass { IsTrue (list_all is_digit result.0.now) }
{
    text.split_at(count_digits(text))
}

// How many digits a text begins with.
fn count_digits(text: &[u8]) -> usize
    ensures { result ≡ prefix_len is_digit text.now }
{
    text.iter().take_while(|b| is_digit(**b)).count()
}

/// Whether the text has no byte but digits.
pub fn are_digits(text: &[u8]) -> bool
    ensures { result ≡ list_all is_digit text.now }
{
    text.iter().all(|b| is_digit(*b))
}

// Whether the byte is an ASCII digit.
fn is_digit(byte: u8) -> bool
    ensures { result ≡ is_digit byte }
{
    byte.is_ascii_digit()
}

// The number that digits spell, where there is one and there are no more than `most`.
fn read_number(digits: &[u8], most: usize) -> Result<u64, QuantFault>
    requires digits { IsTrue (list_all is_digit digits.now) }
    requires few { most ≤ 15 }
    ensures value { result ≡
        (if is_digits most digits.now then Ok (number digits.now) else Err QuantFault.BadQuantity) }
    ensures bounded { IfOk result (λ n. n < 10 ^ length digits.now) }
    ensures most { IfOk result (λ n. n < 10 ^ 15) }
{
    if digits.is_empty() || digits.len() > most {
        return Err(QuantFault::BadQuantity);
    }
    let mut value = 0;
    for digit in digits {
        value = value * 10 + u64::from(*digit - b'0');
    }
    Ok(value)
}
