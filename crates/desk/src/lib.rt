//! The desk: every step of the scheduler goes through it, in one history that all callers share.
//!
//! - `Desk` is what threads share, and a `Pass` is a caller's leave to use it. A step is done under
//!   a lock; a look takes none.
//! - What a step does and answers is done by `Core`, the state of a desk with one owner. Its
//!   definition is `specs/Machine.antt`. It says with each step what changed of the rows of nodes,
//!   a `Change`, by whose rows the step may change, its `Subject` (`desk_core/noting.rt`).
//! - What looks read is a `Board`: the rows, what is used of each, and the counts of calls, one
//!   copy for looks and one to write, each with the prefix of the history that left it so; an
//!   `Order` is a call's change on its way there. `UnderLock` has the core and both boards, and
//!   makes each call one step of what is published. The rule of what is published is `BoardRule`.
//! - The history exists in the proofs alone: `Prefix` is a beginning of it that was seen, `Head`
//!   the word that threads share, its length. `HistoryRule` says how it grows, as others may: by one
//!   `NextCall` at a time. `Naming` tells one desk from another, and `Blank` is a history before it has a name.
//! - `Step`, `Reply` and `Counts` are what is asked and answered.
//!   `Snapshot` is what a look shows, with what was `Sought` for a pod's request. A pass keeps from
//!   one look to the next what nodes are worth to each `Class` of pods: `Kept`.
//! - What holds of every history are the laws.
#![tactic(auto)]

mod board;
mod board_rule;
mod change;
mod class;
mod desk;
mod desk_core;
mod history;
mod history_rule;
mod kept;
mod laws;
mod limits;
mod next_call;
mod pass;
mod snapshot;
mod sought;
mod step;
mod subject;
mod under_lock;

pub use book::{Limits, NoMemory, Refusal};
pub use desk::Desk;
pub use history::{Blank, Naming};
pub use history_rule::{Adds, HistoryRule, Nothing};
pub use laws::{
    desk_limits_are_these, entry_or_place, history_tells_the_state, in_flight_is_unanswered,
    one_pass_is_alone, tickets_are_given_once,
};
pub use limits::{MAX_CALLS, MAX_PASSES, NoPlace};
pub use pass::Pass;
pub use snapshot::{Row, Snapshot};
pub use sought::Sought;
pub use step::{Counts, Reply, Step};
