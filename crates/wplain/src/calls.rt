//! Calls (WebAssembly Core 1.0, 4.4.5, 4.4.7 and 4.4.8): through the table, of the module's own
//! functions, and of the host's.

ghost use Rattle.std.specs.Prelude.{◌≡◌, ◌+◌, nat_le, ◌≤◌, ◌++◌, Some, List, IfOk, length, map, take, drop, reverse, slice_get, option_map, option_and_then};
ghost use Rattle.wcode.specs.declared.value.Value.{Value as one_value};
ghost use Rattle.wmodule.specs.Syntax.{import_of, signature_of};
ghost use Rattle.wbody.specs.Context.{imported_functions};
ghost use Rattle.wmodule.specs.Syntax.{Signature};
ghost use Rattle.wmach.specs.Configuration.{Store as machine_store};
ghost use Rattle.wmach.specs.Indirect.{type_of_function, call_as as defined_call_as, call_element as defined_call_element, reduce_call_indirect};
ghost use Rattle.wmach.specs.Host.{imported_names, hand_over as defined_hand_over, reduce_import};
ghost use Rattle.wmach.specs.Reduction.{zero_of, imported_count as defined_count, enter as defined_enter, reduce_invoke};
ghost use Rattle.wmach.specs.Operands.{topmost};
ghost use Rattle.wplain.specs.Seen.{syntax_of, function_of, body_of_code, records_of, setting_of};
ghost use Rattle.wplain.specs.inside.Seen.{moved};
ghost use Rattle.wplain.specs.Stores.{store_of};
ghost use Rattle.wplain.specs.inside.Done.{WentAs};

use crate::code::{Code, end_of};
use crate::control::Went;
use crate::execution::{
    Continuation, Effect, Execution, Frame, Label, Move, Next, Write, begun, quiet,
};
use crate::setting::{Function, Program, Records, Setting};
use crate::stop::Stop;
use crate::store::{Store, byte_size};
use crate::values::{pop_i32, push};
use std::alloc::Global;
use std::mem;
use wcode::{Value, ValueType};
use wmach::{Trap, same_signature};
use wmem::Memory;
use wmodule::{FunctionType, Import, ImportKind};
use wtype::host_number;

// How many functions are imported. It gives up where they can't be counted.
fn count(imports: &[Import]) -> Result<usize, Stop>
    ensures { IfOk result (λ n. (types : List Signature) →
        length (imported_functions types (map import_of imports.now)) ≡ n) }
{
    match imports {
        [] => Ok(0),
        [first, rest @ ..] => match first.kind {
            ImportKind::Function(_) => count(rest)?.checked_add(1).ok_or(Stop::Stuck),
            _ => count(rest),
        },
    }
}

// The same of a module.
fn count_in(program: &Program) -> Result<usize, Stop>
    ensures { IfOk result (λ n. defined_count (syntax_of program.now) ≡ n) }
{
    let imported = count(program.imports.as_slice())?;
    Ok(imported)
}

// The type that the module lists at this place.
fn listed(program: &Program, index: u32) -> Result<&FunctionType, Stop>
    ensures { IfOk result (λ t. slice_get (syntax_of program.now).types index ≡ Some (signature_of t.now)) }
{
    program.types.get(index as usize).ok_or(Stop::Stuck)
}

// The index of the type of the function at this place.
fn signature_at(functions: &[Function], place: usize) -> Result<u32, Stop>
    ensures { IfOk result (λ t. (types : List Signature)
        → slice_get (map (λ f. slice_get types f.signature) (map function_of functions.now)) place ≡ Some (slice_get types t)) }
{
    match functions {
        [] => Err(Stop::Stuck),
        [first, rest @ ..] => {
            if place == 0 {
                Ok(first.signature)
            } else {
                signature_at(rest, place - 1)
            }
        }
    }
}

// The index of the type of the function at this place among the imported ones and then the others.
fn type_from(imports: &[Import], functions: &[Function], place: usize) -> Result<u32, Stop>
    ensures { IfOk result (λ t. (types : List Signature)
        → slice_get (imported_functions types (map import_of imports.now) ++ map
        (λ f. slice_get types f.signature) (map function_of functions.now)) place ≡ Some (slice_get types t)) }
{
    match imports {
        [] => signature_at(functions, place),
        [first, rest @ ..] => match first.kind {
            ImportKind::Function(t) => {
                if place == 0 {
                    Ok(t)
                } else {
                    type_from(rest, functions, place - 1)
                }
            }
            _ => type_from(rest, functions, place),
        },
    }
}

// The type of the function with this index, the imported ones first, if there is one.
fn type_of(program: &Program, function: u32) -> Result<&FunctionType, Stop>
    ensures { IfOk result (λ t. type_of_function (syntax_of program.now) function ≡ Some (signature_of t.now)) }
{
    let imports = program.imports.as_slice();
    let functions = program.functions.as_slice();
    let index = type_from(imports, functions, function as usize)?;
    let t = listed(program, index)?;
    Ok(t)
}

// The imported function at this place among them.
fn imported_at(imports: &[Import], place: usize) -> Result<&Import, Stop>
    ensures { IfOk result (λ i. slice_get (imported_names (map import_of imports.now)) place
        ≡ Some (i.now.module.items, i.now.name.items)) }
{
    match imports {
        [] => Err(Stop::Stuck),
        [first, rest @ ..] => match first.kind {
            ImportKind::Function(_) => {
                if place == 0 {
                    Ok(first)
                } else {
                    imported_at(rest, place - 1)
                }
            }
            _ => imported_at(rest, place),
        },
    }
}

// A call of the function, where it is of the type that is wanted.
fn call_as<'a>(
    program: &Program,
    wanted: &FunctionType,
    function: u32,
    rest: &'a Code,
) -> Result<Move<'a>, Stop>
    ensures { IfOk result (λ m. (store : machine_store) (locals below : List one_value)
        → defined_call_as (syntax_of program.now) store locals below
        (signature_of wanted.now) function (body_of_code rest.now) ≡ moved store locals below m) }
{
    let found = type_of(program, function)?;
    if same_signature(found, wanted) {
        Ok(quiet(1, Next::Call(function, rest)))
    } else {
        Ok(quiet(1, Next::Trap(Trap::SignatureMismatch)))
    }
}

// A call of what the table has at a place.
fn call_element<'a>(
    program: &Program,
    wanted: &FunctionType,
    element: Option<Option<u32>>,
    rest: &'a Code,
) -> Result<Move<'a>, Stop>
    ensures { IfOk result (λ m. (store : machine_store) (locals below : List one_value)
        → defined_call_element (syntax_of program.now) store locals below
        (signature_of wanted.now) element (body_of_code rest.now) ≡ moved store locals below m) }
{
    match element {
        None => Ok(quiet(1, Next::Trap(Trap::UndefinedElement))),
        Some(None) => Ok(quiet(1, Next::Trap(Trap::UninitializedElement))),
        Some(Some(function)) => call_as(program, wanted, function, rest),
    }
}

// call_indirect x
pub fn call_indirect<'a>(
    program: &Program,
    store: &Store,
    values: &mut Vec<Value>,
    x: u32,
    rest: &'a Code,
) -> Result<Move<'a>, Stop>
    ensures { (locals : List one_value) → IfOk result (λ m. reduce_call_indirect (syntax_of program.now)
        (store_of store.now) locals values.old.items x (body_of_code rest.now) ≡ moved (store_of store.now) locals values.new.items m) }
{
    if program.tables.is_empty() {
        return Err(Stop::Stuck);
    }
    let wanted = listed(program, x)?;
    let i = pop_i32(values)?;
    let element = element_at(store.table.as_slice(), i);
    let called = call_element(program, wanted, element, rest)?;
    Ok(called)
}

// What a table has at a place.
fn element_at(table: &[Option<u32>], i: u32) -> Option<Option<u32>>
    ensures { slice_get table.now i ≡ result }
{
    match table.get(i as usize) {
        Some(element) => Some(*element),
        None => None,
    }
}

// So many bytes lie within the memory from this address on.
fn has_room(memory: &Memory, address: u32, size: usize) -> bool
    ensures { result ≡ nat_le (address + size) (length memory.now.bytes) }
{
    let bytes = byte_size(memory);
    let at = address as usize;
    at <= bytes && size <= bytes - at
}

// A record for which there is so much room at an address.
fn hand_over<'a>(
    program: &Program,
    store: &Store,
    values: &mut Vec<Value>,
    address: u32,
    limit: u32,
    bytes: &'a [u8],
    rest: &'a Code,
) -> Result<Move<'a>, Stop>
    ensures { (locals : List one_value) → IfOk result (λ m. defined_hand_over (syntax_of program.now)
        (store_of store.now) locals values.old.items address limit bytes.now (body_of_code rest.now) ≡ moved (store_of store.now) locals values.new.items m) }
{
    let size = bytes.len();
    push(values, Value::I32((size % (1 << 32)) as u32))?;
    if (limit as usize) < size {
        return Ok(quiet(0, Next::Code(rest)));
    }
    if program.memories.is_empty() || !has_room(&store.memory, address, size) {
        return Ok(quiet(0, Next::Trap(Trap::HostOutOfBounds)));
    }
    let cost = ((size + 255) / 256) as u64;
    let write = Write::Bytes(address, bytes);
    Ok(Move {
        effect: Effect { cost, write },
        next: Next::Code(rest),
    })
}

// The record that is handed over under this number.
fn record(records: &Records, import: usize) -> Option<&[u8]>
    ensures { records_of records.now import ≡ option_map (λ r. r.now) result }
{
    let held = match import {
        0 => &records.pod,
        1 => &records.node,
        2 => &records.second_pod,
        3 => &records.second_node,
        _ => return None,
    };
    match held {
        Some(bytes) => Some(bytes.as_slice()),
        None => None,
    }
}

// An imported function, which is the host's.
fn import<'a>(
    setting: &'a Setting,
    store: &Store,
    values: &mut Vec<Value>,
    function: u32,
    rest: &'a Code,
) -> Result<Move<'a>, Stop>
    ensures { (locals : List one_value) → IfOk result (λ m. reduce_import (setting_of setting.now)
        (store_of store.now) locals values.old.items function (body_of_code rest.now) ≡ moved (store_of store.now) locals values.new.items m) }
{
    let imports = setting.program.imports.as_slice();
    let found = imported_at(imports, function as usize)?;
    let named = host_number(found.module.as_slice(), found.name.as_slice());
    let number = named.ok_or(Stop::Stuck)?;
    let limit = pop_i32(values)?;
    let address = pop_i32(values)?;
    match record(&setting.records, number) {
        Some(bytes) => {
            let program = &setting.program;
            hand_over(program, store, values, address, limit, bytes, rest)
        }
        None => Ok(quiet(0, Next::Trap(Trap::NoRecord))),
    }
}

// The arguments, which stand as operands, and zeros: the locals of a function that is entered.
fn locals_of(
    alloc: Global,
    values: &mut Vec<Value>,
    count: usize,
    types: &[ValueType],
) -> Result<Vec<Value>, Stop>
    ensures taken { IfOk result (λ ls. values.new.items ≡ drop count values.old.items) }
    ensures there { IfOk result (λ ls. topmost count values.old.items ≡ Some (take count values.old.items)) }
    ensures locals { IfOk result (λ ls. ls.items ≡ reverse (take count values.old.items) ++ map zero_of types.now) }
{
    if values.len() < count {
        return Err(Stop::Stuck);
    }
    let mut locals = zeros(alloc, types)?;
    arguments(values, count, &mut locals)?;
    Ok(locals)
}

fn zeros(alloc: Global, types: &[ValueType]) -> Result<Vec<Value>, Stop>
    ensures { IfOk result (λ ls. ls.items ≡ map zero_of types.now) }
{
    match types {
        [] => Ok(Vec::new(alloc)),
        [first, rest @ ..] => {
            let mut locals = zeros(alloc, rest)?;
            push(&mut locals, zero(*first))?;
            Ok(locals)
        }
    }
}

fn zero(t: ValueType) -> Value
    ensures { result ≡ zero_of t }
{
    match t {
        ValueType::I32 => Value::I32(0),
        ValueType::I64 => Value::I64(0),
    }
}

// So many operands before the locals, the topmost last.
#[tactic(auto, using(crate::proofs::Places::drop_later))]
fn arguments(values: &mut Vec<Value>, count: usize, locals: &mut Vec<Value>) -> Result<(), Stop>
    requires { count ≤ length values.old.items }
    ensures values { IfOk result (λ u. values.new.items ≡ drop count values.old.items) }
    ensures locals { IfOk result (λ u. locals.new.items ≡ reverse (take count values.old.items) ++ locals.old.items) }
{
    if count == 0 {
        return Ok(());
    }
    let v = values.remove(0);
    push(locals, v)?;
    arguments(values, count - 1, locals)?;
    Ok(())
}

// A function of the module, with what is left of the operands below it.
fn enter<'a>(
    alloc: Global,
    values: &mut Vec<Value>,
    function: &'a Function,
    t: &FunctionType,
    rest: &'a Code,
) -> Result<Went<'a>, Stop>
    ensures { (store : machine_store) (locals left : List one_value) →
        IfOk result (WentAs (defined_enter store locals values.old.items
        (function_of function.now) (signature_of t.now) (body_of_code rest.now)) store locals left) }
{
    let arity = match t.result {
        Some(_) => 1,
        None => 0,
    };
    let types = function.locals.as_slice();
    let locals = locals_of(alloc, values, t.parameters.len(), types)?;
    let below = mem::replace(values, Vec::new(alloc));
    let body = Execution::Here(begun(alloc, &function.body));
    let label = Label {
        below: Vec::new(alloc),
        arity,
        continuation: Continuation::Nothing,
        inside: Box::new(alloc, body)?,
        rest: end_of(&function.body),
    };
    let frame = Frame {
        below,
        arity,
        locals,
        inside: Box::new(alloc, Execution::Label(label))?,
        rest,
    };
    Ok(Went::Into(0, Execution::Frame(frame)))
}

// The module's own function at this place.
fn owned(program: &Program, place: usize) -> Result<&Function, Stop>
    ensures { IfOk result (λ f. slice_get (syntax_of program.now).functions place ≡ Some (function_of f.now)) }
{
    program.functions.get(place).ok_or(Stop::Stuck)
}

// A call of the module's own function at this place.
fn invoke_own<'a>(
    alloc: Global,
    program: &'a Program,
    values: &mut Vec<Value>,
    place: usize,
    rest: &'a Code,
) -> Result<Went<'a>, Stop>
    ensures { (store : machine_store) (locals left : List one_value) → IfOk result (WentAs (option_and_then
        (λ f. option_and_then (λ type. defined_enter store locals values.old.items f type
        (body_of_code rest.now)) (slice_get (syntax_of program.now).types f.signature))
        (slice_get (syntax_of program.now).functions place)) store locals left) }
{
    let own = owned(program, place)?;
    let t = listed(program, own.signature)?;
    enter(alloc, values, own, t, rest)
}

/// A call where there are so many frames.
pub fn invoke<'a>(
    alloc: Global,
    setting: &'a Setting,
    frames: u32,
    store: &Store,
    values: &mut Vec<Value>,
    function: u32,
    rest: &'a Code,
) -> Result<Went<'a>, Stop>
    ensures { (locals : List one_value) → IfOk result (WentAs (reduce_invoke (setting_of setting.now) frames
        (store_of store.now) locals values.old.items function (body_of_code rest.now)) (store_of store.now) locals values.new.items) }
{
    let program = &setting.program;
    let imported = count_in(program)?;
    let place = function as usize;
    if place < imported {
        let called = import(setting, store, values, function, rest)?;
        return Ok(Went::On(called));
    }
    if frames >= 256 {
        return Ok(Went::On(quiet(0, Next::Trap(Trap::CallDepth))));
    }
    invoke_own(alloc, program, values, place - imported, rest)
}
