//! What is known of a pod, of a node, and of what is heard.
ghost use Rattle.std.specs.Prelude.{◌≡◌, ℕ};

use quant::{Request, Ticket, Version};

/// How sure it is what became of a bind that was asked for.
#[derive(Clone, Copy)]
pub enum Asking {
    /// No answer is known.
    Sent,
    /// The server said that it bound the pod.
    Created,
    /// The server refused, or can do nothing any more: a read tells whether it bound the pod.
    InDoubt,
}

/// Where a pod stands.
#[derive(Clone, Copy)]
pub enum Stage {
    /// It has no node, and asks for this.
    Waits(Request),
    /// It had no node, and a bind of it was asked for.
    Asked {
        /// What it asks for.
        request: Request,
        /// What names the bind.
        ticket: Ticket,
        /// What is known of the bind.
        asking: Asking,
    },
    /// It has a node.
    Stands,
}

/// What was last told of a pod.
#[derive(Clone, Copy)]
pub struct Known {
    /// The pod's version.
    pub version: Version,
    /// How many lists of pods had begun when it was last told.
    pub list: u64,
    /// Where it stands.
    pub stage: Stage,
    /// Whether it isn't to be bound once more where a bind of it comes to nothing.
    pub withheld: bool,
}

/// When a node's row was told.
#[derive(Clone, Copy)]
pub struct Seen {
    /// The node's version.
    pub version: Version,
    /// How many lists of nodes had begun when it was last told.
    pub list: u64,
}

/// What was told of an object of some kind, and when.
pub(crate) trait Listed: Drop {
    ghost list: { Self → ℕ };

    /// How many lists of the kind had begun when it was last told.
    fn list(&self) -> u64
        ensures { result ≡ list self.now };
}

impl Listed for Known {
    ghost list = { λ known. known.list };

    fn list(&self) -> u64 {
        self.list
    }
}

impl Listed for Seen {
    ghost list = { λ seen. seen.list };

    fn list(&self) -> u64 {
        self.list
    }
}

/// What is heard of a kind of objects.
#[derive(Clone, Copy)]
pub struct Heard {
    /// How many lists have begun.
    pub lists: u64,
    /// Whether the last of them hasn't ended.
    pub listing: bool,
    /// Whether it shows all that was asked of the server before the ledger was made, as a list of
    /// pods does that began once the server could do nothing of that any more.
    pub fresh: bool,
    /// Whether one that shows this has ended.
    pub listed: bool,
    /// Whether a watch is open.
    pub hears: bool,
}

/// Whether pods on nodes were left out, for want of room.
#[derive(Clone, Copy)]
pub struct LeftOut {
    /// Whether one was, and no list has ended since that had room for each.
    pub any: bool,
    /// How many lists of pods had begun when the last was left out.
    pub list: u64,
}
