//! A kit as a set of rules.
ghost use Rattle.std.specs.Prelude.{◌≡◌};
ghost use Rattle.plugin.specs.Kit.{ready_parts};

use crate::instances::Instances;
use crate::kept::Kept;
use crate::shown::Shown;
use quant::{Pod, Res, SharedNode};
use rules::{FilterVerdict, Rules, ScoreVerdict};
use std::marker::Model;

/// A kit, seen as a set of rules.
///
/// What a set of rules owes is that it answers as before, whatever it was asked. So contracts see
/// of the kit its plugins alone, each with the image from which its calls begin: what an instance's
/// store is between two calls, no call sees. Nor do they see what is kept of what plugins said.
pub struct KitRules {
    kit: Instances,
    kept: Kept,
    // How often a rule was asked, from 2^64 on from 0 again.
    asked: u64,
}

impl Model for KitRules {
    ghost use Rattle.std.specs.Prelude.{List};
    ghost use Rattle.std.specs.Coded.{codes};
    ghost use Rattle.plugin.specs.Kit.{Ready, ready_parts};

    ghost Value = { List Ready };

    ghost coded = { Prim.hlevel codes };

    ghost view = { λ rules. ready_parts rules.kit };

    ghost use Rattle.plugin.specs.inside.Kept.{KeptHolds};

    ghost invariant = { λ rules. KeptHolds (ready_parts rules.kit) rules.kept };
}

// By hand, so that who drops it calls this, and its parts' drops are proved here alone.
impl Drop for KitRules {
    fn drop(self) {
        let Self {
            kit: _kit,
            kept: _kept,
            asked: _,
        } = self;
    }
}

impl KitRules {
    /// The rules of a kit of these instances.
    pub(crate) fn new(kit: Instances) -> KitRules
        ensures { result ≡ ready_parts kit }
    {
        let kept = Kept::new(kit.alloc());
        KitRules {
            kit,
            kept,
            asked: 0,
        }
    }
}

impl Rules for KitRules {
    ghost use Rattle.std.specs.Prelude.{◌≡◌};
    ghost use Rattle.row_record.specs.Record.{pod_bytes3};
    ghost use Rattle.plugin.specs.Kit.{rules_of};
    ghost use Rattle.plugin.specs.inside.Shown.{IsOfNode};
    ghost use Rattle.plugin.specs.inside.OneAnswer.{one_answer};

    /// The pod's class, and what is known of the node.
    type Notes = Shown;

    ghost answers = { rules_of };

    ghost OfPod = { λ shown pod. shown.class ≡ pod_bytes3 pod };

    ghost OfNode = { λ plugins shown node used. IsOfNode plugins shown node used };

    fn count(&self) -> usize {
        self.kit.count()
    }

    fn weight(&self, place: usize) -> u8 {
        self.kit.weight(place)
    }

    fn show_pod(&mut self, pod: &Pod) -> Shown {
        Shown::of_pod(&mut self.kept, pod)
    }

    fn show_node(&mut self, shown: &mut Shown, node: &SharedNode, used: &Res) {
        shown.show_node(&mut self.kept, node, used);
    }

    fn filter(
        &mut self,
        place: usize,
        shown: &Shown,
        pod: &Pod,
        node: &SharedNode,
        used: &Res,
    ) -> FilterVerdict {
        self.asked = self.asked.wrapping_add(1);
        shown.ask_filter(&mut self.kit, &mut self.kept, place, pod, node, used)
    }

    fn score(
        &mut self,
        place: usize,
        shown: &Shown,
        pod: &Pod,
        node: &SharedNode,
        used: &Res,
    ) -> ScoreVerdict {
        self.asked = self.asked.wrapping_add(1);
        shown.ask_score(&mut self.kit, &mut self.kept, place, pod, node, used)
    }

    fn spent(&self) -> u64 {
        self.kit.spent().all.wrapping_add(self.asked)
    }

    fn spent_once(&self) -> u64 {
        self.kit.spent().once
    }

    ghost say_one_thing = { one_answer };
}
