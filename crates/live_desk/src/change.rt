//! What the desk is told of an event that the ledger takes.
ghost use Rattle.std.specs.Prelude.{◌≡◌, IfOk};
ghost use Rattle.live_desk.specs.Telling.{place_of};
ghost use Rattle.live_desk.specs.inside.Change.{change_of};

use ledger::{Event, Kind, Said};
use quant::{Name, Request, SharedNode};
use std::alloc::AllocError;

/// What the desk is told of an event that the ledger takes.
#[derive(Drop)]
pub(crate) enum Change {
    /// Nothing.
    Nothing,
    /// What a list left out goes.
    LeftOut(Kind),
    /// A node is there, with this row.
    NodeSet(SharedNode),
    /// A node is gone.
    NodeGone(Name),
    /// A pod isn't to be bound: it goes, where the ledger knows it no more.
    Withheld(Name),
    /// A pod stands on a node, and takes so much there.
    PodBound(Name, Name, Request),
    /// A pod is gone.
    PodGone(Name),
    /// A bind of a pod to a node may be asked for, which another than the desk chose.
    Asked(Name, Name),
    /// A read settled a pod's bind: where it was read to stand, if it stands, it does so at this
    /// place.
    Settled(Name, Option<(Name, Request)>),
}

// What the desk is told of an event, if the ledger takes it.
pub(crate) fn change_of(event: &Event) -> Result<Change, AllocError>
    ensures { IfOk result (λ change. change ≡ change_of event.now) }
{
    Ok(match event {
        Event::ListEnds(kind) => Change::LeftOut(*kind),
        Event::Node { node, .. } => match node.share() {
            Ok(node) => Change::NodeSet(node),
            Err(AllocError) => return Err(AllocError),
        },
        Event::NodeGone { name } => Change::NodeGone(name.copied()),
        Event::Withheld { uid, .. } => Change::Withheld(uid.copied()),
        Event::Stands {
            uid,
            node,
            request,
            ..
        } => Change::PodBound(uid.copied(), node.copied(), *request),
        Event::Gone { uid } => Change::PodGone(uid.copied()),
        Event::Bind { uid, node } => Change::Asked(uid.copied(), node.copied()),
        Event::Read { uid, said, .. } => Change::Settled(uid.copied(), place_in(said)),
        Event::ListBegins(_)
        | Event::Deaf(_)
        | Event::Hears(_)
        | Event::Waits { .. }
        | Event::Unread
        | Event::Rested
        | Event::Answered { .. } => Change::Nothing,
    })
}

// Where a pod was read to stand.
fn place_in(said: &Said) -> Option<(Name, Request)>
    ensures { result ≡ place_of said.now }
{
    match said {
        Said::Stands { node, request, .. } => Some((node.copied(), *request)),
        Said::Waits | Said::Gone => None,
    }
}
