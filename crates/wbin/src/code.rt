//! The bodies of functions (WebAssembly Core 1.0, 5.5.13).
#![tactic(auto, unfolding(crate::specs::inside::Reading::Reads, crate::specs::inside::Codes::ReadsCode))]

ghost use Rattle.std.specs.Prelude.{◌≡◌, ◌≢◌, ℕ, ◌+◌, ◌<◌, ◌≤◌, List, [], length, take, drop, map, IfOk};
ghost use Rattle.wcode.specs.declared.fault.BinFault.TheVariants.{NoMemory};
ghost use Rattle.wmodule.specs.Syntax.{Code, code_in};
ghost use Rattle.wmodule.specs.Grammar.{SpellsCode};
ghost use Rattle.wmodule.specs.Placed.{IsCode};
ghost use Rattle.wbin.specs.inside.Reading.{Nothing, Once, Keeps, Reads};
ghost use Rattle.wbin.specs.inside.Codes.{ReadsCode};
ghost use Rattle.wbin.specs.inside.Unique.{code_once};
ghost use Rattle.wbin.specs.inside.Kept.{code_kept};

use crate::placed::Part;
use crate::placeless::{Entry, Many, malformed, read_sized};
use std::alloc::Global;
use wcode::{BinFault, Kind, skip_expr};
use wmodule::{FunctionCode, LocalRun, Place};

impl Part for FunctionCode {
    type Out = FunctionCode;

    ghost Syntax = { Code };

    ghost seen = { code_in };

    ghost spells = { SpellsCode };

    ghost placed = { IsCode };

    fn read(alloc: Global, bytes: &[u8], at: usize) -> Result<(FunctionCode, usize), BinFault> {
        let (contents, end) = read_sized(bytes, at)?;
        match read_code(alloc, &bytes[..end], end - contents.len()) {
            Ok(code) => Ok((code, end)),
            Err(fault) => Err(fenced_body(fault, at)),
        }
    }

    ghost once = { code_once };

    ghost kept = { code_kept };
}

// The locals and the body from `at` on, which fill the bytes.
fn read_code(alloc: Global, bytes: &[u8], at: usize) -> Result<FunctionCode, BinFault>
    requires { at ≤ length bytes.now }
    ensures { ReadsCode bytes.now at result }
{
    let (locals, begin) = <Many<LocalRun>>::read(alloc, bytes, at)?;
    let (blocks, end) = skip_expr(alloc, bytes, begin)?;
    if end != bytes.len() {
        return Err(malformed(Kind::Truncated, end));
    }
    let body = Place { begin, end };
    Ok(FunctionCode {
        locals,
        body,
        blocks,
    })
}

// A fault in a body whose size stands at `at`: bytes that are wanted beyond the size, or left in
// it, are the size's fault.
#[cold]
fn fenced_body(fault: BinFault, at: usize) -> BinFault
    ensures { fault ≡ NoMemory → result ≡ NoMemory }
{
    match fault {
        BinFault::Malformed {
            kind: Kind::Truncated,
            ..
        } => malformed(Kind::BadSection, at),
        other => other,
    }
}
