//! What the objects of the Kubernetes API say, in the scheduler's own terms.
//!
//! `translation` is the door: it gives the line of a script for a line of the API, of the `site`
//! whose pods are to be placed; that no line is passed over which may be a pod on a node is defined
//! in `specs/Standing.antt`. Which event an object tells is found by `told` and defined in
//! `specs/Told.antt`: `node_row` reads a node's row and `pod_row` a waiting pod's, with their
//! `labels`, `taints` and `tolerations`; `demands` finds what keeps a pod from being told. What a
//! field says is read by `reading`, and what isn't told is named by `left_out`; how people know a
//! line's object is found by `naming`.
//!
//! `quantity` reads an amount as the API spells it. What it is worth is defined in
//! `specs/Quantity.antt`, as a fraction; it is then rounded to the unit in which the scheduler
//! counts its `resource`, upwards where a pod asks for it and downwards where a node has it.
//! `digits` and `suffix` have its parts. `amounts` finds where an object tells them, `containers`
//! reads a pod's containers and what their statuses hold, and `request` finds the moment at which
//! they need most: what a pod asks for while it waits and counts for once it stands is read by the
//! same calls, which take a fault as one or as the worst that it could mean
//! (`specs/PodRequest.antt`).
//!
//! `heard` tells the same as of an object's own version, for who keeps account of binds, and which
//! pods without a node no script is told of (`specs/Heard.antt`).
//!
//! `line` writes the line of a script that tells an event, and `line_field` its fields.
#![tactic(auto)]

mod amounts;
mod change;
mod containers;
mod demands;
mod digits;
mod fault;
mod heard;
mod labels;
mod laws;
mod left_out;
mod line;
mod line_field;
mod naming;
mod node_row;
mod pod_row;
mod quantity;
mod reading;
mod request;
mod resource;
mod site;
mod suffix;
mod taints;
mod told;
mod tolerations;
mod translation;

pub use heard::{Heard, Hearing, NoValue, hear, hear_none, value_in};
pub use laws::{
    left_out_is_named_in_texts, more_never_counts_less, what_stands_counts_enough,
    what_stands_counts_its_parts,
};
pub use naming::object_name;
pub use site::Site;
pub use translation::{MAX_OBJECT, Translation, translate};
