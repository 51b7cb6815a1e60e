//! Why the program `wsched` ends early, and the one line that tells it.
//!
//! - `fault`: why it ends, and the exit status that goes with it; `refusal`: why a plugin's module
//!   is refused; `unread`: which file couldn't be read, and why.
//! - `excerpt`: as much of a file's or an object's name as a line has room for.
//! - `message`: the line that tells a fault, made without memory, so that want of memory can be
//!   told too.
#![tactic(auto)]

mod excerpt;
mod fault;
mod message;
mod refusal;
mod unread;

pub use excerpt::{Excerpt, excerpt_of};
pub use fault::Fault;
pub use message::{Message, push, report};
pub use refusal::{Refusal, push_refusal};
pub use unread::{Cause, FileFault, LineUncounted, PluginUnread};
