//! Why the program ends early, and the exit status by which it tells it.
ghost use Rattle.std.specs.Prelude.{◌≡◌};
ghost use Rattle.fault_line.specs.Fault.{status_of};

use crate::refusal::Refusal;
use crate::unread::{FileFault, LineUncounted, PluginUnread};
use command::{Misuse, WordFault};
use quant::Name;
use streams::RunFault;

/// Why the program ends early.
#[derive(Drop)]
pub enum Fault {
    /// Its words were refused.
    Words(WordFault),
    /// Its words ask for nothing, and this is wrong with them.
    Misused(Misuse),
    /// The module of the plugin of this name was refused.
    Plugin(Name, Refusal),
    /// The file of a plugin couldn't be opened or read.
    Unread(PluginUnread),
    /// The file of a module that is to be checked couldn't be opened or read.
    UnreadModule(FileFault),
    /// The run of a script ended early.
    Run(RunFault),
    /// A line of objects can't be counted: it may be a pod on a node, and no line of a script can
    /// say that it is there, or there is no version left.
    Uncounted(LineUncounted),
}

impl Fault {
    /// The exit status: 1 at a faulty line, a refused module or an object that can't be counted, 2
    /// at bad words, 3 for want of memory or of a place at the desk, 4 when a read or a write
    /// failed.
    pub fn status(&self) -> u8
        ensures { result ≡ status_of self.now }
    {
        match self {
            Fault::Plugin(_, _) | Fault::Run(RunFault::Line(_, _)) | Fault::Uncounted(_) => 1,
            Fault::Words(WordFault::BadWords) | Fault::Misused(_) => 2,
            Fault::Words(WordFault::NoMemory)
            | Fault::Run(RunFault::NoMemory | RunFault::NoPlace) => 3,
            Fault::Unread(_)
            | Fault::UnreadModule(_)
            | Fault::Run(RunFault::Read | RunFault::Write) => 4,
        }
    }
}
