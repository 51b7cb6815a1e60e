//! The fields of a script line.
ghost use Rattle.std.specs.Prelude.{◌≡◌};
ghost use Rattle.manifest.specs.Field.{key};

/// A field of a script line. Faults name the field in which they stand.
#[derive(Clone, Copy, Debug)]
pub enum Field {
    /// What the line asks for.
    Op,
    /// The version of a watch event.
    Version,
    /// The name of a node.
    Name,
    /// An amount of CPU.
    Cpu,
    /// An amount of memory.
    Memory,
    /// How many pods a node takes.
    Pods,
    /// The labels of a node or a pod.
    Labels,
    /// The taints of a node.
    Taints,
    /// Whether a node takes no new pods.
    Unschedulable,
    /// What tells one pod from every other.
    Uid,
    /// Which pods come first.
    Priority,
    /// What a pod's containers ask.
    Containers,
    /// What a pod's init containers ask.
    Init,
    /// The tolerations of a pod.
    Tolerations,
    /// The node on which a pod stands.
    Node,
    /// A moment of the scheduler's clock.
    At,
    /// The ticket of an assumed place.
    Ticket,
    /// Whether filters alone are asked.
    Filters,
}

impl Field {
    /// The key under which a line has the field, and the name by which a fault tells it.
    #[tactic(auto, unfolding(crate::specs::Field::key))]
    pub fn key(self) -> &'static str
        ensures { result.now ≡ key self }
    {
        match self {
            Field::Op => "op",
            Field::Version => "v",
            Field::Name => "name",
            Field::Cpu => "cpu",
            Field::Memory => "mem",
            Field::Pods => "pods",
            Field::Labels => "labels",
            Field::Taints => "taints",
            Field::Unschedulable => "unschedulable",
            Field::Uid => "uid",
            Field::Priority => "priority",
            Field::Containers => "containers",
            Field::Init => "init",
            Field::Tolerations => "tolerations",
            Field::Node => "node",
            Field::At => "at",
            Field::Ticket => "ticket",
            Field::Filters => "filters",
        }
    }
}
