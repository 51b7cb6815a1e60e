//! The module that worked calls are made in, in its bytes (WebAssembly Core 1.0, 5.5). Only the
//! body of `filter` differs.

use std::alloc::Global;
use std::panic::Expect;
use std::process::Abort;

const HEADER: &[u8] = b"\0asm\x01\0\0\0";

// Types: 0 from nothing to an i32; 1 from two i32 to an i32; 2 from an i32 and an i64 to an i32; 3
// from an i32 to an i32; 4 from nothing to nothing; 5 the same as 2; 6 from nothing to an i64.
const TYPES: &[u8] =
    b"\x01\x23\x07\x60\x00\x01\x7F\x60\x02\x7F\x7F\x01\x7F\x60\x02\x7F\x7E\x01\x7F\x60\x01\x7F\x01\x7F\x60\x00\x00\x60\x02\x7F\x7E\x01\x7F\x60\x00\x01\x7E";

// The function 0 is `sched.pod`.
const IMPORTS: &[u8] = b"\x02\x0D\x01\x05sched\x03pod\x00\x01";

// The types of the functions 1 to 5: `filter`, `score`, `after`, `down` and the start function.
const FUNCTIONS: &[u8] = b"\x03\x06\x05\x00\x06\x02\x03\x04";

// A table of one, a memory of one page that may have two, and an i32 of 0.
const TABLE: &[u8] = b"\x04\x04\x01\x70\x00\x01";

const MEMORY: &[u8] = b"\x05\x04\x01\x01\x01\x02";

const GLOBAL: &[u8] = b"\x06\x06\x01\x7F\x01\x41\x00\x0B";

const EXPORTS: &[u8] = b"\x07\x12\x02\x06filter\x00\x01\x05score\x00\x02";

const START: &[u8] = b"\x08\x01\x05";

// An element segment: `after` at 0.
const ELEMENTS: &[u8] = b"\x09\x07\x01\x00\x41\x00\x0B\x01\x03";

// The locals of `filter`: an i32 and an i64.
const LOCALS: &[u8] = b"\x02\x01\x7F\x01\x7E";

// `score` tells what a call has left: a digest of the memory, of the global and of how many pages
// there are. The digest so far is turned left by 7, and the next joins it by xor. Of the memory
// each i64 joins it, from the first on, four in a round.
const SCORE: &[u8] =
    b"\x55\x02\x01\x7F\x01\x7E\x3F\x00\x04\x40\x03\x40\x20\x01\x42\x07\x89\x20\x00\x29\x03\x00\x85\x42\x07\x89\x20\x00\x29\x03\x08\x85\x42\x07\x89\x20\x00\x29\x03\x10\x85\x42\x07\x89\x20\x00\x29\x03\x18\x85\x21\x01\x20\x00\x41\x20\x6A\x22\x00\x3F\x00\x41\x10\x74\x49\x0D\x00\x0B\x0B\x20\x01\x42\x07\x89\x23\x00\xAD\x85\x42\x07\x89\x3F\x00\xAD\x85\x0B";

// `after` takes an i32 and an i64 and has locals of the same types. It adds each operand to its
// local, and gives the first sum less the upper half of the second. An operand is below when it
// returns.
const AFTER: &[u8] =
    b"\x1C\x02\x01\x7F\x01\x7E\x41\x09\x20\x00\x20\x02\x6A\x22\x02\x20\x03\x20\x01\x7C\x22\x03\x42\x20\x88\xA7\x6B\x0F\x0B";

// `down` gives 7 at 0, and else 1 more than it gives for one less.
const DOWN: &[u8] =
    b"\x14\x00\x41\x07\x20\x00\x45\x0D\x00\x1A\x41\x01\x20\x00\x41\x01\x6B\x10\x04\x6A\x0B";

// The start function asks for the record.
const AT_START: &[u8] = b"\x09\x00\x41\x00\x41\x00\x10\x00\x1A\x0B";

// A data segment: `hi` at 16.
const DATA: &[u8] = b"\x0B\x08\x01\x00\x41\x10\x0B\x02hi";

// The code section's number, and how many functions it has.
const CODE: &[u8] = &[10];

const COUNT: &[u8] = &[5];

// A size in two bytes, of which padded spellings are legal.
fn size(length: usize) -> [u8; 2] {
    [(length % 128) as u8 + 128, (length / 128 % 128) as u8]
}

// The bytes of all parts.
fn joined<R: Abort>(rt: &R, alloc: Global, parts: &[&[u8]]) -> Vec<u8> {
    let mut bytes = Vec::new(alloc);
    for part in parts {
        bytes.extend_from_slice(part).expect(rt, "there is memory");
    }
    bytes
}

/// The module in which `filter` has this body, an i32 as its local 0 and an i64 as its local 1.
pub fn module_around<R: Abort>(rt: &R, alloc: Global, body: &[u8]) -> Vec<u8> {
    let own = LOCALS.len().saturating_add(body.len());
    let others = 3 + SCORE.len() + AFTER.len() + DOWN.len() + AT_START.len();
    let all = size(own.saturating_add(others));
    let filter = size(own);
    let parts: [&[u8]; 21] = [
        HEADER, TYPES, IMPORTS, FUNCTIONS, TABLE, MEMORY, GLOBAL, EXPORTS, START, ELEMENTS, CODE,
        &all, COUNT, &filter, LOCALS, body, SCORE, AFTER, DOWN, AT_START, DATA,
    ];
    joined(rt, alloc, &parts)
}
