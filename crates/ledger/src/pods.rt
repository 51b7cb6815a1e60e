//! What is told of pods.
ghost use Rattle.std.specs.Prelude.{◌≡◌, true, false};
ghost use Rattle.std.specs.FinMap as fin;
ghost use Rattle.std.specs.FinMap.{contains_key};
ghost use Rattle.book.specs.Tables.{is_full_for};
ghost use Rattle.ledger.specs.declared.event.Answer.TheVariants as answer;
ghost use Rattle.ledger.specs.Telling.{became, named, at_stage, with_pod, fallen_short, stands, stands_new, waits, waits_at, waits_first, withheld, withheld_at, gone, gone_at};

use crate::event::Answer;
use crate::known::{Known, LeftOut, Stage};
use crate::ledger::Ledger;
use crate::tables::{is_full_for, next_version, put, take};
use quant::{Event as Change, Name, Request, Version};

impl Ledger {
    /// A pod has a node.
    pub(crate) fn stands(
        &mut self,
        version: Version,
        uid: Name,
        node: Name,
        request: Request,
    ) -> Answer
        ensures { became result self.new ≡ stands self.old version uid node request }
    {
        if let Some(known) = self.known(&uid) {
            if version <= known.version {
                return self.name_pod(uid, known);
            }
        }
        self.stands_new(self.of_pods.lists, version, uid, node, request)
    }

    /// A pod has a node, which is newer than what is known, and was told when so many lists of pods
    /// had begun.
    pub(crate) fn stands_new(
        &mut self,
        list: u64,
        version: Version,
        uid: Name,
        node: Name,
        request: Request,
    ) -> Answer
        ensures { became result self.new ≡ stands_new self.old list version uid node request }
    {
        if is_full_for(&self.pods, &uid) {
            return self.fall_short();
        }
        let change = Change::PodBound {
            version: next_version(&self.book),
            uid: uid.copied(),
            node,
            request,
        };
        if !take(&mut self.book, change) {
            return self.fall_short();
        }
        self.keep(uid, at_stage(list, version, Stage::Stands))
    }

    /// A pod has no node.
    pub(crate) fn waits(&mut self, version: Version, uid: Name, request: Request) -> Answer
        ensures { became result self.new ≡ waits self.old version uid request }
    {
        match self.known(&uid) {
            None => self.waits_first(version, uid, request),
            Some(known) => {
                if version <= known.version {
                    return self.name_pod(uid, known);
                }
                self.waits_at(version, uid, request, known.stage)
            }
        }
    }

    // A pod that wasn't known has no node.
    fn waits_first(&mut self, version: Version, uid: Name, request: Request) -> Answer
        ensures { became result self.new ≡ waits_first self.old version uid request }
    {
        if is_full_for(&self.pods, &uid) {
            return Answer::Full;
        }
        let stage = Stage::Waits(request);
        self.keep(uid, at_stage(self.of_pods.lists, version, stage))
    }

    // A pod that is known at a stage is told to have no node. Nothing takes its node from a pod but
    // its end.
    fn waits_at(&mut self, version: Version, uid: Name, request: Request, stage: Stage) -> Answer
        requires { contains_key self.old.pods uid ≡ true }
        ensures { became result self.new ≡ waits_at self.old version uid request stage }
    {
        let stage = match stage {
            Stage::Waits(_) => Stage::Waits(request),
            Stage::Asked { .. } | Stage::Stands => stage,
        };
        self.keep(uid, at_stage(self.of_pods.lists, version, stage))
    }

    /// A pod has no node, and isn't to be bound.
    pub(crate) fn withheld(&mut self, version: Version, uid: Name) -> Answer
        ensures { became result self.new ≡ withheld self.old version uid }
    {
        let Some(known) = self.known(&uid) else {
            return Answer::Old;
        };
        if version <= known.version {
            return self.name_pod(uid, known);
        }
        self.withheld_at(version, uid, known.stage)
    }

    // A pod that is known at a stage isn't to be bound. A bind that was asked for stays open.
    fn withheld_at(&mut self, version: Version, uid: Name, stage: Stage) -> Answer
        requires { contains_key self.old.pods uid ≡ true }
        ensures { became result self.new ≡ withheld_at self.old version uid stage }
    {
        if matches!(stage, Stage::Waits(_)) {
            self.pods.remove(&uid);
            return Answer::Told;
        }
        let known = Known {
            withheld: matches!(stage, Stage::Asked { .. }),
            ..at_stage(self.of_pods.lists, version, stage)
        };
        self.keep(uid, known)
    }

    /// A pod is gone.
    pub(crate) fn gone(&mut self, uid: Name) -> Answer
        ensures { became result self.new ≡ gone self.old uid }
    {
        match self.known(&uid) {
            None => Answer::Old,
            Some(known) => self.gone_at(uid, known.stage),
        }
    }

    // A pod that is known at a stage is gone.
    fn gone_at(&mut self, uid: Name, stage: Stage) -> Answer
        ensures { became result self.new ≡ gone_at self.old uid stage }
    {
        if !matches!(stage, Stage::Waits(_)) {
            let change = Change::PodGone {
                version: next_version(&self.book),
                uid: uid.copied(),
            };
            if !take(&mut self.book, change) {
                return Answer::Full;
            }
        }
        self.pods.remove(&uid);
        Answer::Told
    }

    /// What is known of a pod.
    pub fn known(&self, uid: &Name) -> Option<Known>
        ensures { result ≡ fin.get self.now.pods uid.now }
    {
        self.pods.get(uid).copied()
    }

    /// This is known of a pod.
    pub(crate) fn keep(&mut self, uid: Name, known: Known) -> Answer
        requires { is_full_for self.old.pods self.old.room uid ≡ false }
        ensures told { result ≡ answer.Told }
        ensures kept { self.new ≡ with_pod self.old uid known }
    {
        put(&mut self.pods, uid, known);
        Answer::Told
    }

    // What is older than what is known of a pod still says that it is there.
    fn name_pod(&mut self, uid: Name, known: Known) -> Answer
        requires { contains_key self.old.pods uid ≡ true }
        ensures told { result ≡ answer.Old }
        ensures kept { self.new ≡ with_pod self.old uid (named self.old known) }
    {
        let list = self.of_pods.lists;
        self.keep(uid, Known { list, ..known });
        Answer::Old
    }

    /// A pod on a node is left out: there is no room for it, or it can't be read.
    pub(crate) fn fall_short(&mut self) -> Answer
        ensures { became result self.new ≡ became answer.Full (fallen_short self.old) }
    {
        self.left_out = LeftOut {
            any: true,
            list: self.of_pods.lists,
        };
        Answer::Full
    }
}

// What is known of a pod that was told to be at this stage when so many lists of pods had begun.
fn at_stage(list: u64, version: Version, stage: Stage) -> Known
    ensures { result ≡ at_stage list version stage }
{
    Known {
        version,
        list,
        stage,
        withheld: false,
    }
}
