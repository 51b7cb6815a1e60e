//! Each step, with what it changes of the rows that are published.
ghost use Rattle.std.specs.Prelude.{◌≡◌, ◌<◌, ◌≤◌, ◌+◌, [], IfOk, length, vec_capacity, slice_index, slice_index_or};
ghost use Rattle.std.specs.Option.{option_map};
ghost use Rattle.std.specs.FinMap as fin;
ghost use Rattle.book.specs.Rows.{rows_in};
ghost use Rattle.book.specs.Used.{nothing};
ghost use Rattle.desk.specs.inside.Board.{IsSubject, IsReady, IsNoted, IsRowUnder, total_in, used_in};
ghost use Rattle.book.specs.Cluster.{Cluster};

use super::Core;
use crate::change::{Change, Total};
use crate::step::{Reply, Step};
use crate::subject::Subject;
use book::NoMemory;
use quant::{Event, Moment, Name, Res, SharedNode, SharedPod};

impl Core {
    /// Whose rows a step may change.
    ///
    /// Errors: `NoMemory` where the node that it tells of can have no further owner, and where
    /// places expire and there is no memory for what is used of each node.
    pub(crate) fn subject_of(&self, step: &Step) -> Result<Subject, NoMemory>
        ensures { IfOk result (IsSubject self.now.state.cluster step.now) }
    {
        match step {
            Step::Event(event) => subject_of_event(event),
            Step::Assume { uid, .. } | Step::BindDone { uid, .. } | Step::Forget { uid, .. } => {
                Ok(Subject::Pod(uid.copied()))
            }
            Step::Tick(now) => self.subject_at(*now),
            Step::Pop | Step::Fail { .. } | Step::Count => Ok(Subject::Nothing),
        }
    }

    // Whose rows may change as time goes on to a moment.
    fn subject_at(&self, now: Moment) -> Result<Subject, NoMemory>
        ensures { IfOk result (IsSubject self.now.state.cluster (Step.Tick now)) }
    {
        if !self.book.expires(now) {
            return Ok(Subject::Nothing);
        }
        let Ok(used) = Vec::with_capacity(self.alloc, self.book.rows().len()) else {
            return Err(NoMemory);
        };
        Ok(Subject::All(used))
    }

    /// Does a step for a pass, or refuses it, says so, and counts the call; with what it changed of
    /// the rows of nodes. It takes no memory, and hands out the pod that goes first, if the step
    /// hands one out.
    pub(crate) fn take_noted(
        &mut self,
        pass: usize,
        step: Step,
        subject: Subject,
        first: Option<SharedPod>,
    ) -> (Reply, Change)
        requires { IsReady self.old pass step first subject }
        ensures { IsNoted self.old pass step result.0 result.1 self.new }
    {
        match subject {
            Subject::Nothing => self.take_of_nobody(pass, step, first),
            Subject::Pod(uid) => self.take_of_pod(pass, step, first, &uid),
            Subject::Set(node) => self.take_of_node(pass, step, first, node),
            Subject::Gone(name) => self.take_of_gone(pass, step, first, &name),
            Subject::All(used) => self.take_of_all(pass, step, first, used),
        }
    }

    // A step that changes no row.
    fn take_of_nobody(
        &mut self,
        pass: usize,
        step: Step,
        first: Option<SharedPod>,
    ) -> (Reply, Change)
        requires { IsReady self.old pass step first Subject.Nothing }
        ensures { IsNoted self.old pass step result.0 result.1 self.new }
    {
        (self.take_call(pass, step, first), Change::Nothing)
    }

    // A step that may move a pod.
    fn take_of_pod(
        &mut self,
        pass: usize,
        step: Step,
        first: Option<SharedPod>,
        uid: &Name,
    ) -> (Reply, Change)
        requires { IsReady self.old pass step first (Subject.Pod uid.now) }
        ensures { IsNoted self.old pass step result.0 result.1 self.new }
    {
        // The rows are those of the nodes, by name.
        let _ = self.book.rows();
        let before = self.row_under(uid);
        let said = self.take_call(pass, step, first);
        let now = self.row_under(uid);
        (
            said,
            Change::Used(self.total_at(before), self.total_at(now)),
        )
    }

    // A step that tells of a node.
    fn take_of_node(
        &mut self,
        pass: usize,
        step: Step,
        first: Option<SharedPod>,
        node: SharedNode,
    ) -> (Reply, Change)
        requires { IsReady self.old pass step first (Subject.Set node) }
        ensures { IsNoted self.old pass step result.0 result.1 self.new }
    {
        let found = self.book.find_row(&node.name);
        let said = self.take_call(pass, step, first);
        if said.is_refused() {
            return (said, Change::Nothing);
        }
        match found {
            Ok(at) => (said, Change::Set(at, node)),
            Err(at) => (said, Change::Come(at, self.book.used(&node.name), node)),
        }
    }

    // A step that tells that a node is gone.
    fn take_of_gone(
        &mut self,
        pass: usize,
        step: Step,
        first: Option<SharedPod>,
        name: &Name,
    ) -> (Reply, Change)
        requires { IsReady self.old pass step first (Subject.Gone name.now) }
        ensures { IsNoted self.old pass step result.0 result.1 self.new }
    {
        let found = self.book.find_row(name);
        let said = self.take_call(pass, step, first);
        if said.is_refused() {
            return (said, Change::Nothing);
        }
        match found {
            Ok(at) => (said, Change::Gone(at)),
            // It was there.
            Err(_) => (said, Change::Nothing),
        }
    }

    // A step by which places expire.
    fn take_of_all(
        &mut self,
        pass: usize,
        step: Step,
        first: Option<SharedPod>,
        used: Vec<Res>,
    ) -> (Reply, Change)
        requires { IsReady self.old pass step first (Subject.All used) }
        ensures { IsNoted self.old pass step result.0 result.1 self.new }
    {
        let said = self.take_call(pass, step, first);
        let mut used = used;
        used.extend_from_slice(self.book.used_of_rows()).unwrap();
        (said, Change::AllUsed(used))
    }

    // The row of the node where a pod is placed.
    fn row_under(&self, uid: &Name) -> Option<usize>
        ensures { IsRowUnder (rows_in self.now.state.cluster.nodes) (fin.get self.now.state.cluster.places uid.now)
            result }
    {
        let place = self.book.place_of(uid)?;
        match self.book.find_row(&place.node) {
            Ok(at) => Some(at),
            Err(_) => None,
        }
    }

    // What is used of a row's node, if it is one.
    fn total_at(&self, row: Option<usize>) -> Option<Total>
        ensures { result ≡ total_in (used_in self.now.state.cluster) row }
    {
        let at = row?;
        let used = *self.book.used_of_rows().get(at)?;
        Some(Total { at, used })
    }
}

// Whose rows an event may change.
fn subject_of_event(event: &Event) -> Result<Subject, NoMemory>
    ensures { (c : Cluster) → IfOk result (IsSubject c (Step.Event event.now)) }
{
    match event {
        Event::NodeSet { node, .. } => match node.share() {
            Ok(node) => Ok(Subject::Set(node)),
            Err(_) => Err(NoMemory),
        },
        Event::NodeGone { name, .. } => Ok(Subject::Gone(name.copied())),
        Event::PodBound { uid, .. } | Event::PodGone { uid, .. } => Ok(Subject::Pod(uid.copied())),
        Event::PodPending { .. } => Ok(Subject::Nothing),
    }
}
