//! Who tells the cluster.
ghost use Rattle.std.specs.Prelude.{◌≡◌, ◌+◌, ◌<◌, ◌^◌, ℕ, Option, Some};
ghost use Rattle.binder.specs.declared.job.Bind.{Bind};
ghost use Rattle.binder.specs.Binds.{bind_on, dones_of};

use crate::answer::BindAnswer;
use quant::Name;

/// It tells the cluster of places. It counts the binds that it was asked for and those that were
/// done, and keeps the last, as a `Tally` does.
pub trait Binder: Drop {
    // How many binds it was asked for.
    ghost asks: { Self → ℕ };

    // How many of them were done.
    ghost dones: { Self → ℕ };

    // What it was told last: a pod's uid, and the name of the node that it is placed on.
    ghost told: { Self → Option Bind };

    /// How many binds it was asked for.
    fn asked(&self) -> u64
        ensures { result ≡ asks self.now };

    /// Tells the cluster that the pod of this uid is placed on the node of this name.
    fn bind(&mut self, uid: &Name, node: &Name) -> BindAnswer
        requires { asks self.old < 10 ^ 18 }
        ensures asked { asks self.new ≡ asks self.old + 1 }
        ensures done { dones self.new ≡ dones self.old + dones_of result }
        ensures told { told self.new ≡ Some (bind_on uid.now node.now) };
}
