//! A module as the plain evaluator of the definition takes it: its bodies are trees, and its first
//! store is made here.

use std::alloc::Global;
use std::panic::Expect;
use std::process::Abort;
use wcode::{Instr, Value, ValueType, read_constant, read_expr};
use wmem::{MAX_PAGES, Memory};
use wmodule::{FunctionCode, FunctionType, Import, Module};
use wplain::{Code, Function, Program, Records, Setting, Store};

const SPELLED: &str = "what was validated is spelled";

const MEMORY: &str = "there is memory";

// An instruction with its bodies, and behind it the rest.
#[cycle(reading)]
fn code_before<R: Abort>(
    rt: &R,
    alloc: Global,
    instruction: &Instr,
    rest: Box<Code>,
    room: u32,
) -> Code {
    match instruction {
        Instr::Plain(plain) => Code::Plain(*plain, rest),
        Instr::Block(t, inside) => Code::Block(*t, code_of(rt, alloc, inside, room), rest),
        Instr::Loop(t, inside) => Code::Loop(*t, code_of(rt, alloc, inside, room), rest),
        Instr::If(t, yes_arm, no_arm) => Code::If(
            *t,
            code_of(rt, alloc, yes_arm, room),
            code_of(rt, alloc, no_arm, room),
            rest,
        ),
        Instr::BrTable(labels, default) => Code::BrTable(
            Vec::from_slice(alloc, labels).expect(rt, MEMORY),
            *default,
            rest,
        ),
    }
}

// Instructions as a tree of at most this height.
#[cycle(reading)]
fn code_of<R: Abort>(rt: &R, alloc: Global, body: &[Instr], room: u32) -> Box<Code> {
    assert!(rt; room > 0);
    let code = match body {
        [] => Code::Done,
        [first, others @ ..] => {
            let rest = code_of(rt, alloc, others, room - 1);
            code_before(rt, alloc, first, rest, room - 1)
        }
    };
    Box::new(alloc, code).expect(rt, MEMORY)
}

// The body that begins there.
fn body_at<R: Abort>(rt: &R, alloc: Global, bytes: &[u8], begin: usize) -> Code {
    assert!(rt; begin <= bytes.len());
    let (body, _) = read_expr(alloc, bytes, begin).expect(rt, SPELLED);
    Box::into_inner(code_of(rt, alloc, &body, 1_000))
}

// The locals of a function, one by one.
fn locals<R: Abort>(rt: &R, alloc: Global, code: &FunctionCode) -> Vec<ValueType> {
    let mut locals = Vec::new(alloc);
    for run in &code.locals {
        for _i in 0..run.count {
            locals.push(run.value).expect(rt, MEMORY);
        }
    }
    locals
}

fn functions<R: Abort>(rt: &R, alloc: Global, module: &Module) -> Vec<Function> {
    let tables = module.tables();
    let mut functions = Vec::new(alloc);
    for (code, signature) in tables.codes.iter().zip(tables.signatures.iter()) {
        let function = Function {
            signature: *signature,
            locals: locals(rt, alloc, code),
            body: body_at(rt, alloc, module.bytes(), code.body.begin),
        };
        functions.push(function).expect(rt, MEMORY);
    }
    functions
}

fn types<R: Abort>(rt: &R, alloc: Global, module: &Module) -> Vec<FunctionType> {
    let mut types = Vec::new(alloc);
    for t in &module.tables().types {
        let parameters = Vec::from_slice(alloc, t.parameters.as_slice()).expect(rt, MEMORY);
        let t = FunctionType {
            parameters,
            result: t.result,
        };
        types.push(t).expect(rt, MEMORY);
    }
    types
}

fn imports<R: Abort>(rt: &R, alloc: Global, module: &Module) -> Vec<Import> {
    let mut imports = Vec::new(alloc);
    for import in &module.tables().imports {
        let import = Import {
            module: Vec::from_slice(alloc, import.module.as_slice()).expect(rt, MEMORY),
            name: Vec::from_slice(alloc, import.name.as_slice()).expect(rt, MEMORY),
            kind: import.kind,
        };
        imports.push(import).expect(rt, MEMORY);
    }
    imports
}

/// The module's parts that a call can reach, with the record of a pod that is handed over, if it
/// is.
pub fn setting_of<R: Abort>(
    rt: &R,
    alloc: Global,
    module: &Module,
    pod: Option<Vec<u8>>,
) -> Setting {
    let tables = module.tables();
    Setting {
        program: Program {
            types: types(rt, alloc, module),
            imports: imports(rt, alloc, module),
            functions: functions(rt, alloc, module),
            tables: Vec::from_slice(alloc, tables.tables.as_slice()).expect(rt, MEMORY),
            memories: Vec::from_slice(alloc, tables.memories.as_slice()).expect(rt, MEMORY),
        },
        records: Records {
            pod,
            node: None,
            second_pod: None,
            second_node: None,
        },
    }
}

// The constant that stands there.
fn constant<R: Abort>(rt: &R, module: &Module, at: usize) -> Value {
    assert!(rt; at <= module.bytes().len());
    read_constant(module.bytes(), at).expect(rt, SPELLED)
}

fn offset<R: Abort>(rt: &R, module: &Module, at: usize) -> u32 {
    match constant(rt, module, at) {
        Value::I32(number) => number,
        Value::I64(_) => 0,
    }
}

// The memory, with the data segments or with none, which is also the image.
fn first_memory<R: Abort>(rt: &R, alloc: Global, module: &Module, segments: bool) -> Memory {
    let tables = module.tables();
    let (least, most) = match tables.memories.first() {
        Some(limits) => (limits.least, limits.most.unwrap_or(MAX_PAGES)),
        None => (0, 0),
    };
    let most = most.min(MAX_PAGES);
    assert!(rt; least <= most && most <= 32);
    let mut memory = Memory::new(alloc, least, most).expect(rt, MEMORY);
    if segments {
        for segment in &tables.data_segments {
            let contents = segment.contents;
            let bytes = module.bytes().get(contents.begin..contents.end);
            let at = offset(rt, module, segment.offset.begin);
            let _ = memory.copy_in(at, bytes.expect(rt, SPELLED));
        }
        memory.keep();
    }
    memory
}

/// The first values of the globals.
pub fn first_globals<R: Abort>(rt: &R, alloc: Global, module: &Module) -> Vec<Value> {
    let mut globals = Vec::new(alloc);
    for global in &module.tables().globals {
        globals
            .push(constant(rt, module, global.first.begin))
            .expect(rt, MEMORY);
    }
    globals
}

// The table, with the element segments or with none.
fn first_table<R: Abort>(
    rt: &R,
    alloc: Global,
    module: &Module,
    segments: bool,
) -> Vec<Option<u32>> {
    let tables = module.tables();
    let least = match tables.tables.first() {
        Some(limits) => limits.least,
        None => 0,
    };
    let mut table = vec![in alloc; None; least as usize].expect(rt, MEMORY);
    if segments {
        for segment in &tables.element_segments {
            let at = offset(rt, module, segment.offset.begin) as usize;
            for (i, function) in segment.functions.iter().enumerate() {
                if let Some(element) = table.get_mut(at.saturating_add(i)) {
                    *element = Some(*function);
                }
            }
        }
    }
    table
}

/// The module's first store, with its segments or with none.
pub fn first_store<R: Abort>(rt: &R, alloc: Global, module: &Module, segments: bool) -> Store {
    Store {
        memory: first_memory(rt, alloc, module, segments),
        globals: Vec::new(alloc),
        table: first_table(rt, alloc, module, segments),
    }
}
