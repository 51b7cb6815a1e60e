//! What a call is handed over.
ghost use Rattle.std.specs.Prelude.{◌≡◌};
ghost use Rattle.whost.specs.Handed.{gives};

use crate::records::Records;
use wmach::Host;

/// Which of the records a call is handed over. Where it asks for another one it is cut off.
#[derive(Clone, Copy)]
pub enum Shows {
    /// All of them.
    All,
    /// Those of the pod: what is said then is said of all nodes.
    ThisPod,
    /// The pod's of version 3 alone: what is said then is said of all pods that have this one, and
    /// of all nodes.
    Class,
    /// Those of version 3: what is said then is said of all pods that have this one, whatever is
    /// used of the node.
    ClassAndRow,
    /// The pod's of version 3, and those of the node: what is said then is said of all pods that
    /// have this one.
    ClassAndNode,
}

impl Shows {
    /// Whether the record of this function is handed over, if there is one.
    fn gives(self, import: usize) -> bool
        ensures { result ≡ gives self import }
    {
        match (self, import) {
            (Shows::All, _) => true,
            (Shows::ThisPod, 0 | 2 | 4) => true,
            (Shows::ThisPod, _) => false,
            (Shows::Class, 4) => true,
            (Shows::Class, _) => false,
            (Shows::ClassAndRow, 0 | 1 | 2 | 3) => false,
            (Shows::ClassAndRow, _) => true,
            (Shows::ClassAndNode, 0 | 2) => false,
            (Shows::ClassAndNode, _) => true,
        }
    }
}

/// The records of a pod and a node, of which a call is handed over what is shown.
///
/// It is the host of all calls, of start functions too, which are given no record: that there is
/// one type lets the compiler make one machine. With two, each verdict took nine times as long.
#[derive(Clone, Copy)]
pub struct Sight<'a> {
    pub records: &'a Records,
    pub shows: Shows,
}

impl<'a> Host for Sight<'a> {
    ghost use Rattle.std.specs.Prelude.{◌≡◌, option_map};
    ghost use Rattle.whost.specs.inside.Sight.{handed};

    ghost records = { λ sight. handed sight.shows sight.records.now };

    fn record(&self, import: usize) -> Option<&[u8]>
        ensures { option_map (λ r. r.now) result ≡ handed self.now.shows self.now.records.now import }
    {
        if !self.shows.gives(import) {
            return None;
        }
        self.records.record(import)
    }
}
