//! What a ledger is told and asked, and what it answers.
use book::Refusal;
use quant::{Name, Request, SharedNode, Ticket, Version};

/// A kind of objects, which the API server lists and watches apart from the other.
#[derive(Clone, Copy)]
pub enum Kind {
    Nodes,
    Pods,
}

/// What became of a bind that was asked for.
#[derive(Clone, Copy)]
pub enum Outcome {
    /// The server bound the pod.
    Created,
    /// The server refused, for whatever reason.
    Refused,
    /// No answer came, and the time is over in which the server may still bind the pod.
    Over,
}

/// What a read says of a pod that was asked about.
#[derive(Drop)]
pub enum Said {
    /// It has no node.
    Waits,
    /// It has one.
    Stands {
        /// The version of the pod as it was read.
        version: Version,
        /// The node's name.
        node: Name,
        /// What the pod takes of the node.
        request: Request,
    },
    /// There is no pod of this uid.
    Gone,
}

/// What is told of a cluster, or asked. A version is the object's own, which rises as it changes.
#[derive(Drop)]
pub enum Event {
    /// A list of all objects of a kind begins: what stands in it is told as if it were new.
    ListBegins(Kind),
    /// The list ended: there is nothing of that kind but what was told since it began.
    ListEnds(Kind),
    /// No watch of a kind is open.
    Deaf(Kind),
    /// A watch of a kind is open, and goes on where the last one or the last list ended.
    Hears(Kind),
    /// A node is there, with this row.
    Node {
        /// The node's version.
        version: Version,
        /// The node.
        node: SharedNode,
    },
    /// A node is gone.
    NodeGone {
        /// The node's name.
        name: Name,
    },
    /// A pod is there, and has no node.
    Waits {
        /// The pod's version.
        version: Version,
        /// The pod.
        uid: Name,
        /// What it asks for.
        request: Request,
    },
    /// A pod is there, has no node, and isn't to be bound: it is another scheduler's, or what it
    /// asks for can't be told.
    Withheld {
        /// The pod's version.
        version: Version,
        /// The pod.
        uid: Name,
    },
    /// A pod is there, and has a node.
    Stands {
        /// The pod's version.
        version: Version,
        /// The pod.
        uid: Name,
        /// The node's name.
        node: Name,
        /// What the pod takes of the node.
        request: Request,
    },
    /// Something was told that can't be read, and that may be a pod on a node.
    Unread,
    /// A pod is gone, or takes nothing any more.
    Gone {
        /// The pod.
        uid: Name,
    },
    /// The time is over in which the server may still do what was asked before the ledger was made.
    /// No bind is asked for until a list of pods has ended that began after this.
    Rested,
    /// May this pod be bound to this node?
    Bind {
        /// The pod.
        uid: Name,
        /// The node's name.
        node: Name,
    },
    /// What became of a bind.
    Answered {
        /// The pod.
        uid: Name,
        /// Which bind of it.
        ticket: Ticket,
        /// What became of it.
        outcome: Outcome,
    },
    /// What a read said that began after the ledger had answered `Read`.
    Read {
        /// The pod.
        uid: Name,
        /// The bind for which it was read.
        ticket: Ticket,
        /// What the read said.
        said: Said,
    },
}

/// What a ledger answers.
#[derive(Clone, Copy, PartialEq, Eq)]
pub enum Answer {
    /// It was taken.
    Told,
    /// It changes nothing: something as new was told before, or nothing is known that it could end.
    Old,
    /// There is no room for it, or it can't be read. A pod on a node that isn't counted here lets
    /// no bind be asked for until a list has ended in which each was.
    Full,
    /// The bind may be asked for, once. It counts from now on.
    Granted(Ticket),
    /// No bind may be asked for now, of whichever pod.
    Shut,
    /// The pod isn't known to wait, or a bind of it was asked for whose end isn't known.
    NotWaiting,
    /// The bind isn't allowed by what is known of the node.
    Refused(Refusal),
    /// The pod has to be read, from the server and not from what it keeps, before the bind's end is
    /// known.
    Read,
}
