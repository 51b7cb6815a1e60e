//! The typing of function bodies (WebAssembly Core 1.0, 3.3 and 3.4.1).
//!
//! - `body` is the whole of it: a loop over the words of the bytes, without a tree. `kind` says
//!   what the most common opcodes do, and `over` goes over each of these as it is read; `words` has
//!   the step over each other kind of word, which is read first.
//! - `scope` is what a body can refer to: types, locals, globals, functions and the open blocks. By
//!   it `effect` says what an instruction does to the operands, and `table` what a branch by an
//!   index does.
//! - `operand_stack` has the operands' types, as far as they are known at that place. Where there
//!   can be no typing, that is a `stop`.
//! - `trail` finds out in the same pass what each branch does; `notes` is what a machine is told of
//!   it.
//! - `fault` is why a module is refused.
#![tactic(auto)]

mod body;
mod effect;
mod fault;
mod kind;
mod notes;
mod operand_stack;
mod over;
mod scope;
mod stop;
mod table;
mod trail;
mod words;

pub use body::{imports_functions, type_body};
pub use fault::TypeFault;
pub use notes::{BranchNote, BranchNotes, Notes};
pub use trail::{Branch, Label};
