//! From a JSON value to what one field says.
ghost use Rattle.std.specs.Prelude.{◌≡◌, ◌≤◌, ◌^◌, IfOk, option_map};
ghost use Rattle.std.specs.Option.{ok_or};
ghost use Rattle.serde_json.specs.View.{view, number_view};
ghost use Rattle.manifest.specs.declared.field.Field.{Field};
ghost use Rattle.manifest.specs.declared.fault.LineFault.TheVariants.{BadField};
ghost use Rattle.manifest.specs.Reading.{Gives, Answers, parsed, integer, natural, signed, flag, name_from, text_from, name, cpu_from, memory_from};

use crate::fault::LineFault;
use crate::field::Field;
use quant::{Bytes, Cpu, Name, Text, read_bytes, read_cpu};
use serde_json::{Number, Value};
use std::alloc::Global;

// The value that a line is.
#[tactic(auto, using(crate::proofs::Parsed::parsed_read, crate::proofs::Parsed::parsed_refused))]
pub(crate) fn parse(alloc: Global, line: &[u8]) -> Result<Value, LineFault>
    ensures { Gives view result (parsed line.now) }
{
    match Value::from_slice(alloc, line) {
        Ok(value) => Ok(value),
        Err(e) if e.is_memory() => Err(LineFault::NoMemory),
        Err(_) => Err(LineFault::NotJson),
    }
}

// A number from low to high.
#[tactic(auto, unfolding(crate::specs::Reading::natural))]
pub(crate) fn natural(value: &Value, field: Field, low: u64, high: u64) -> Result<u64, LineFault>
    ensures value { Answers result (natural low high field (view value.now)) }
    ensures bounded { IfOk result (λ n. n ≤ high) }
{
    let Some(number) = integer(value) else {
        return Err(LineFault::BadField(field));
    };
    match number.as_u64() {
        Some(n) if low <= n && n <= high => Ok(n),
        _ => Err(LineFault::OverLimit(field)),
    }
}

// A number of 32 bits, which may be below 0.
#[tactic(auto, unfolding(crate::specs::Reading::signed))]
pub(crate) fn signed(value: &Value, field: Field) -> Result<i32, LineFault>
    ensures { Answers result (signed field (view value.now)) }
{
    let Some(number) = integer(value) else {
        return Err(LineFault::BadField(field));
    };
    match number.as_i64() {
        Some(n) if i64::from(i32::MIN) <= n && n <= i64::from(i32::MAX) => Ok(n as i32),
        _ => Err(LineFault::OverLimit(field)),
    }
}

// The number, if it is an integer of 64 bits.
#[tactic(auto, unfolding(crate::specs::Reading::integer))]
fn integer(value: &Value) -> Option<&Number>
    ensures { (field : Field) → integer field (view value.now)
        ≡ ok_or (option_map (λ number. number_view number.now) result) (BadField field) }
{
    let Some(number) = value.as_number() else {
        return None;
    };
    if number.is_f64() {
        return None;
    }
    Some(number)
}

// Yes or no.
#[tactic(auto, unfolding(crate::specs::Reading::flag))]
pub(crate) fn flag(value: &Value, field: Field) -> Result<bool, LineFault>
    ensures { Answers result (flag field (view value.now)) }
{
    value.as_bool().ok_or(LineFault::BadField(field))
}

// The name that a text is, if it is one.
#[tactic(auto, unfolding(crate::specs::Reading::name_from))]
pub(crate) fn name_from(text: &str) -> Option<Name>
    ensures { (field : Field) → name_from field text.now ≡ ok_or result (BadField field) }
{
    Name::new(text.as_bytes()).ok()
}

// The text beside a key that a text is, if it is one.
#[tactic(auto, unfolding(crate::specs::Reading::text_from))]
pub(crate) fn text_from(text: &str) -> Option<Text>
    ensures { (field : Field) → text_from field text.now ≡ ok_or result (BadField field) }
{
    Text::new(text.as_bytes()).ok()
}

// The amount of CPU that a text spells.
#[tactic(auto, unfolding(crate::specs::Reading::cpu_from))]
pub(crate) fn cpu_from(text: &str, field: Field) -> Result<Cpu, LineFault>
    ensures value { Answers result (cpu_from field text.now) }
    ensures bounded { IfOk result (λ cpu. cpu.0 ≤ 2 ^ 30) }
{
    match read_cpu(text.as_bytes()) {
        Ok(cpu) => Ok(cpu),
        Err(_) => Err(LineFault::Quantity(field)),
    }
}

// The amount of memory that a text spells.
#[tactic(auto, unfolding(crate::specs::Reading::memory_from))]
pub(crate) fn memory_from(text: &str, field: Field) -> Result<Bytes, LineFault>
    ensures value { Answers result (memory_from field text.now) }
    ensures bounded { IfOk result (λ mem. mem.0 ≤ 2 ^ 44) }
{
    match read_bytes(text.as_bytes()) {
        Ok(mem) => Ok(mem),
        Err(_) => Err(LineFault::Quantity(field)),
    }
}
