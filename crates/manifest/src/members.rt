//! The fields of an object that hold one value.
ghost use Rattle.std.specs.Prelude.{◌≡◌, ◌≤◌, ◌^◌, IfOk, pos, false, option_map};
ghost use Rattle.std.specs.Option.{ok_or};
ghost use Rattle.serde_json.specs.View.{view};
ghost use Rattle.manifest.specs.Reading.{Answers, at, at_or, text, natural, signed, flag, name, cpu, memory};

use crate::fault::LineFault;
use crate::field::Field;
use crate::reading::{cpu_from, flag, memory_from, name_from, natural, signed};
use quant::{Bytes, Cpu, Name};
use serde_json::Value;

// The text of a field, if there is one. (Whoever asks knows the fault then, and tells it by a
// `let .. else`, whose proof is half of that of a `?`.)
#[tactic(auto, unfolding(crate::specs::Reading::member, crate::specs::Reading::text))]
pub(crate) fn text_at(object: &Value, field: Field) -> Option<&str>
    ensures { at field text (view object.now)
        ≡ ok_or (option_map (λ s. s.now) result) (LineFault.BadField field) }
{
    match object.get(field.key()) {
        Some(value) => value.as_str(),
        None => None,
    }
}

// The name in a field.
#[tactic(auto, unfolding(crate::specs::Reading::name))]
pub(crate) fn name_at(object: &Value, field: Field) -> Result<Name, LineFault>
    ensures { Answers result (at field name (view object.now)) }
{
    let Some(text) = text_at(object, field) else {
        return Err(LineFault::BadField(field));
    };
    name_from(text).ok_or(LineFault::BadField(field))
}

// The number in a field, from low to high.
#[tactic(auto, unfolding(crate::specs::Reading::member))]
pub(crate) fn natural_at(
    object: &Value,
    field: Field,
    low: u64,
    high: u64,
) -> Result<u64, LineFault>
    ensures value { Answers result (at field (natural low high) (view object.now)) }
    ensures bounded { IfOk result (λ n. n ≤ high) }
{
    match object.get(field.key()) {
        Some(value) => natural(value, field, low, high),
        None => Err(LineFault::BadField(field)),
    }
}

// The amount of CPU in the field `cpu`.
#[tactic(auto, unfolding(crate::specs::Reading::cpu))]
pub(crate) fn cpu_at(object: &Value) -> Result<Cpu, LineFault>
    ensures value { Answers result (at Field.Cpu cpu (view object.now)) }
    ensures bounded { IfOk result (λ cpu. cpu.0 ≤ 2 ^ 30) }
{
    let Some(text) = text_at(object, Field::Cpu) else {
        return Err(LineFault::BadField(Field::Cpu));
    };
    cpu_from(text, Field::Cpu)
}

// The amount of memory in the field `mem`.
#[tactic(auto, unfolding(crate::specs::Reading::memory))]
pub(crate) fn memory_at(object: &Value) -> Result<Bytes, LineFault>
    ensures value { Answers result (at Field.Memory memory (view object.now)) }
    ensures bounded { IfOk result (λ mem. mem.0 ≤ 2 ^ 44) }
{
    let Some(text) = text_at(object, Field::Memory) else {
        return Err(LineFault::BadField(Field::Memory));
    };
    memory_from(text, Field::Memory)
}

// The number of 32 bits in a field, or 0.
pub(crate) fn signed_at(object: &Value, field: Field) -> Result<i32, LineFault>
    ensures { Answers result (at_or field (pos 0) signed (view object.now)) }
{
    match object.get(field.key()) {
        Some(value) => signed(value, field),
        None => Ok(0),
    }
}

// Whether a field says yes. An absent one does not.
pub(crate) fn flag_at(object: &Value, field: Field) -> Result<bool, LineFault>
    ensures { Answers result (at_or field false flag (view object.now)) }
{
    match object.get(field.key()) {
        Some(value) => flag(value, field),
        None => Ok(false),
    }
}
