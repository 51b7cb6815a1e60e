//! What a call gives, whatever fuel it has: by the machine, by the definition, and as it was worked
//! out elsewhere.

mod definition;
mod generated;
mod rows;
mod sides;
mod worked_module;

use crate::outcome::assert_none;
use generated::MODULES;
use rows::{CALLS, ELEMENT_CALLS, RECORD_CALLS, Row, START_CALLS};
use sides::{AMPLE, EXHAUSTED, Ended, Sides, invoked, machine, put_data, put_elements};
use std::alloc::Global;
use std::panic::Expect;
use std::process::Abort;
use wmach::{Export, Machine};
use worked_module::module_around;

// Where a reduction may cost 2, so that less fuel can be used up than there is.
#[derive(Clone, Copy)]
enum Copies {
    Nowhere,
    // the second reduction does
    Second,
    Anywhere,
}

// What a call of `filter` is to give.
#[derive(Clone, Copy)]
struct Wanted {
    trap: u8,
    value: u64,
    cost: u64,
    copies: Copies,
}

// How much of the fuel is left where the call is cut off.
fn may_be_left(copies: Copies, fuel: u64, left: u64) -> bool {
    match copies {
        Copies::Nowhere => left == 0,
        Copies::Second => left == u64::from(fuel == 2),
        Copies::Anywhere => left <= 1,
    }
}

// It is what is wanted with so much fuel.
fn is_wanted(wanted: Wanted, fuel: u64, ended: Ended) -> bool {
    if fuel >= wanted.cost {
        return ended == (wanted.trap, wanted.value, wanted.cost);
    }
    let (trap, _, cost) = ended;
    trap == EXHAUSTED && cost <= fuel && may_be_left(wanted.copies, fuel, fuel - cost)
}

// Whether both give what is wanted with so much fuel, and leave the same store.
fn are_alike<R: Abort>(rt: &R, sides: &mut Sides, wanted: Wanted, fuel: u64) -> bool {
    let by_machine = sides.by_machine(fuel);
    let by_definition = sides.by_definition(rt, fuel);
    by_machine == by_definition && is_wanted(wanted, fuel, by_machine.0)
}

// The least fuel of these with which they aren't alike.
fn difference_within<R: Abort>(
    rt: &R,
    sides: &mut Sides,
    wanted: Wanted,
    first: u64,
    last: u64,
) -> Option<u64> {
    for fuel in first..=last {
        if !are_alike(rt, sides, wanted, fuel) {
            return Some(fuel);
        }
    }
    None
}

// Each fuel up to this is tried, unless the call costs less.
const MOST: u64 = 300;

// The first difference with up to 2 more than the call costs, at most 300 and those round the cost.
fn difference<R: Abort>(rt: &R, sides: &mut Sides, wanted: Wanted) -> Option<u64> {
    let enough = wanted.cost.saturating_add(2);
    let found = difference_within(rt, sides, wanted, 0, enough.min(MOST));
    if found.is_some() || enough <= MOST || wanted.cost > AMPLE {
        return found;
    }
    difference_within(rt, sides, wanted, wanted.cost.saturating_sub(1), enough)
}

// What the rows of a table have in common.
#[derive(Clone, Copy)]
struct Kind {
    export: Export,
    // The module's segments are in its first store.
    segments: bool,
    copies: Copies,
}

// The same of a worked call.
fn difference_at<R: Abort>(rt: &R, alloc: Global, row: Row, kind: Kind) -> Option<u64> {
    let (body, trap, value, cost) = row;
    let bytes = module_around(rt, alloc, body);
    let mut sides = Sides::new(rt, alloc, bytes.as_slice(), kind.export, kind.segments);
    let copies = kind.copies;
    difference(
        rt,
        &mut sides,
        Wanted {
            trap,
            value,
            cost,
            copies,
        },
    )
}

const ALONE: Kind = Kind {
    export: Export::Filter,
    segments: false,
    copies: Copies::Nowhere,
};

const WITH_ELEMENTS: Kind = Kind {
    export: Export::Filter,
    segments: true,
    copies: Copies::Nowhere,
};

const COPYING: Kind = Kind {
    export: Export::Filter,
    segments: false,
    copies: Copies::Second,
};

const STARTING: Kind = Kind {
    export: Export::Start,
    segments: false,
    copies: Copies::Nowhere,
};

const TABLES: &[(&[Row], Kind)] = &[
    (CALLS, ALONE),
    (ELEMENT_CALLS, WITH_ELEMENTS),
    (RECORD_CALLS, COPYING),
    (START_CALLS, STARTING),
];

fn tables() -> &'static [(&'static [Row], Kind)] {
    TABLES
}

// The first row of a table at which they differ.
fn first_row<R: Abort>(rt: &R, alloc: Global, rows: &[Row], kind: Kind) -> Option<usize> {
    for (at, row) in rows.iter().enumerate() {
        if difference_at(rt, alloc, *row, kind).is_some() {
            return Some(at);
        }
    }
    None
}

// The same of all tables: no row of one has the number of another's.
fn first_worked<R: Abort>(rt: &R, alloc: Global) -> Option<usize> {
    let mut before = 0usize;
    for (rows, kind) in tables() {
        if let Some(at) = first_row(rt, alloc, rows, *kind) {
            return Some(before.saturating_add(at));
        }
        before = before.saturating_add(rows.len());
    }
    None
}

#[test]
fn worked_calls(rt: HostRuntime) {
    assert_none(&rt, first_worked(&rt, rt.alloc()));
}

// A number in so many bytes of a table, the lower ones first.
fn number(table: &[u8], at: usize, count: usize) -> u64 {
    let bytes = table.get(at..at.saturating_add(count)).unwrap_or(&[]);
    let mut number = 0u64;
    for byte in bytes.iter().rev() {
        number = number.rotate_left(8) ^ u64::from(*byte);
    }
    number
}

// The first difference in the generated module that stands there in a table. What a call costs is
// asked of the machine, with ample fuel.
fn difference_in<R: Abort>(rt: &R, alloc: Global, table: &[u8], at: usize) -> Option<u64> {
    let begin = at.saturating_add(HEAD);
    let end = begin.saturating_add(number(table, at, 2) as usize);
    let bytes = table.get(begin..end).expect(rt, "a whole module");
    let mut sides = Sides::new(rt, alloc, bytes, Export::Filter, true);
    let ((_, _, cost), digest) = sides.by_machine(AMPLE);
    assert!(rt; digest == number(table, at.saturating_add(7), 8));
    let wanted = Wanted {
        trap: table.get(at.saturating_add(2)).copied().unwrap_or(0),
        value: number(table, at.saturating_add(3), 4),
        cost,
        copies: Copies::Anywhere,
    };
    difference(rt, &mut sides, wanted)
}

// How many bytes stand before a module in the table.
const HEAD: usize = 15;

// The first module of a table in which they differ.
fn first_module<R: Abort>(rt: &R, alloc: Global, table: &[u8]) -> Option<usize> {
    let mut at = 0usize;
    for i in 0..200 {
        if difference_in(rt, alloc, table, at).is_some() {
            return Some(i);
        }
        at = at
            .saturating_add(HEAD)
            .saturating_add(number(table, at, 2) as usize);
    }
    assert!(rt; at == table.len());
    None
}

fn modules() -> &'static [u8] {
    MODULES
}

#[test]
fn generated_modules(rt: HostRuntime) {
    assert_none(&rt, first_module(&rt, rt.alloc(), modules()));
}

// A body that calls itself inside 256 blocks.
fn nested_calls<R: Abort>(rt: &R, alloc: Global) -> Vec<u8> {
    let mut body = Vec::new(alloc);
    for i in 0..256 + 1 + 257 {
        let next: &[u8] = if i < 256 {
            b"\x02\x7F"
        } else if i == 256 {
            b"\x10\x01"
        } else {
            b"\x0B"
        };
        body.extend_from_slice(next).expect(rt, "there is memory");
    }
    body
}

fn machine_around<R: Abort>(rt: &R, alloc: Global, body: &[u8]) -> Machine {
    let bytes = module_around(rt, alloc, body);
    machine(rt, alloc, bytes.as_slice())
}

// So much fuel, and how the call is to end.
const NESTED: &[(u64, Ended)] = &[
    (1_000_000, (8, 0, 65_792)),
    (65_792, (8, 0, 65_792)),
    (65_791, (EXHAUSTED, 0, 65_791)),
];

fn nested() -> &'static [(u64, Ended)] {
    NESTED
}

// The first fuel with which such a call ends otherwise.
fn first_other_nested<R: Abort>(rt: &R, alloc: Global) -> Option<usize> {
    let body = nested_calls(rt, alloc);
    let mut machine = machine_around(rt, alloc, body.as_slice());
    for (at, (fuel, want)) in nested().iter().enumerate() {
        if invoked(&mut machine, Export::Filter, *fuel) != *want {
            return Some(at);
        }
    }
    None
}

// The plain evaluator would walk down 65,536 labels at each reduction.
#[test]
fn the_machine_alone_calls_inside_many_blocks(rt: HostRuntime) {
    assert_none(&rt, first_other_nested(&rt, rt.alloc()));
}

// What is done with a machine.
#[derive(Clone, Copy)]
enum Step {
    Call(u64, Ended),
    Elements,
    Data,
    Keep,
    Reset,
}

// Adds 1 to the global and 3 to the i32 at 0, grows the memory by a page, and gives the sum of the
// global, of that i32, of the byte at 16 and of 100 times what growing gave.
const WRITES: &[u8] =
    b"\x23\x00\x41\x01\x6A\x24\x00\x41\x00\x41\x00\x28\x02\x00\x41\x03\x6A\x36\x02\x00\x41\x01\x40\x00\x41\xE4\x00\x6C\x23\x00\x6A\x41\x00\x28\x02\x00\x6A\x41\x10\x2D\x00\x00\x6A\x0B";

const WRITING: &[Step] = &[
    Step::Call(100, (0, 104, 14)),
    Step::Call(100, (0, 4_294_967_204, 14)),
    Step::Reset,
    Step::Call(100, (0, 104, 14)),
    Step::Reset,
    // the global is written when this call is cut off, and then the memory too
    Step::Call(4, (EXHAUSTED, 0, 4)),
    Step::Call(100, (0, 105, 14)),
    Step::Reset,
    Step::Call(7, (EXHAUSTED, 0, 7)),
    Step::Reset,
    Step::Call(100, (0, 104, 14)),
    Step::Keep,
    Step::Call(100, (0, 4_294_967_204, 14)),
    Step::Call(100, (0, 4_294_967_208, 14)),
    Step::Reset,
    Step::Call(100, (0, 4_294_967_204, 14)),
    Step::Data,
    Step::Call(100, (0, 16, 14)),
    Step::Reset,
    Step::Call(100, (0, 4_294_967_204, 14)),
    Step::Reset,
    Step::Data,
    Step::Keep,
    Step::Call(100, (0, 12, 14)),
    Step::Reset,
    Step::Call(100, (0, 12, 14)),
];

// Calls the element 0 of the table with 17 and 3 * 2^32.
const CALLS_ELEMENT: &[u8] = b"\x41\x11\x42\x80\x80\x80\x80\x30\x41\x00\x11\x05\x00\x0B";

const CALLING: &[Step] = &[
    Step::Call(100, (6, 0, 1)),
    Step::Elements,
    Step::Call(100, (0, 14, 15)),
    Step::Reset,
    Step::Call(100, (6, 0, 1)),
    Step::Elements,
    Step::Keep,
    Step::Reset,
    Step::Call(100, (0, 14, 15)),
];

// Whether a call gives what is wanted.
fn is_done(machine: &mut Machine, step: Step) -> bool {
    match step {
        Step::Call(fuel, want) => return invoked(machine, Export::Filter, fuel) == want,
        Step::Elements => put_elements(machine),
        Step::Data => put_data(machine),
        Step::Keep => machine.keep(),
        Step::Reset => machine.reset(),
    }
    true
}

// The first step that gives something else.
fn first_other(machine: &mut Machine, steps: &[Step]) -> Option<usize> {
    for (at, step) in steps.iter().enumerate() {
        if !is_done(machine, *step) {
            return Some(at);
        }
    }
    None
}

fn writing() -> &'static [Step] {
    WRITING
}

fn calling() -> &'static [Step] {
    CALLING
}

// The same of a module around this body.
fn first_other_around<R: Abort>(
    rt: &R,
    alloc: Global,
    body: &[u8],
    steps: &[Step],
) -> Option<usize> {
    let mut machine = machine_around(rt, alloc, body);
    first_other(&mut machine, steps)
}

#[test]
fn images_are_kept_and_brought_back(rt: HostRuntime) {
    assert_none(&rt, first_other_around(&rt, rt.alloc(), WRITES, writing()));
    assert_none(
        &rt,
        first_other_around(&rt, rt.alloc(), CALLS_ELEMENT, calling()),
    );
}
