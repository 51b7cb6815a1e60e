//! What makes a module acceptable (WebAssembly Core 1.0, 3.4).
//!
//! - `checked` is the whole of it: `validate` asks the four questions below in this order, and a
//!   module that passes is a `Checked`.
//! - `imports`: are they the host's functions, with their type?
//! - `rules`: are all rules kept but those of bodies? `limits` has the sizes of tables and
//!   memories, `globals` the globals and segments, whose values and offsets are `constants`, and
//!   `exports` what is exported. `bodies` then types each body by `wbody`.
//! - `called`: do the exports that are called have their types? `function_types` has types by the
//!   index of a function.
//! - `sizes`: is nothing larger than it may be?
#![tactic(auto)]

mod bodies;
mod called;
mod checked;
mod constants;
mod exports;
mod function_types;
mod globals;
mod imports;
mod limits;
mod rules;
mod sizes;

pub use checked::{Checked, validate};
pub use function_types::{listed, type_of_function};
pub use imports::host_number;
pub use sizes::count_locals;
pub use wbody::TypeFault;
