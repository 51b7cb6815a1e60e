//! Those who work in a storm: what each does with its pass of the desk, in a thread of its own.
//!
//! - A `Worker` is a pass of the desk, and what its thread works with.
//! - `feeder` tells the desk what the watch told, `cycles` places pods, and `binding` does the jobs
//!   that these bring.
//! - A `Bell` wakes the cycle threads where a feeder brought a pod or a move, and tells them when
//!   both have ended.
//! - `clerk` is the pass that meets all others at the end, counts and looks.
//!
//! Who meets want of memory ends its work, and notes that it did.
#![tactic(auto)]

mod bell;
mod binding;
mod clerk;
mod cycles;
mod feeder;
mod worker;

pub use bell::{Bell, FEEDERS};
pub use binding::{Reporting, bind_all};
pub use clerk::{meet_each, take_dump};
pub use cycles::{schedule_beside, schedule_last};
pub use feeder::feed;
pub use worker::{Worker, all_done, enlist};
