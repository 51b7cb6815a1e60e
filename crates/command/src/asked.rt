//! What the program can be asked for.

use quant::Name;

/// A plugin, as the words configure it.
#[derive(Drop)]
pub struct Spec<'a> {
    /// Its name, which no other plugin of the words has.
    pub name: Name,
    /// How often its score counts, 1 to 10.
    pub weight: u8,
    /// How much fuel its start function and each of its calls have, 1 to 10^9.
    pub fuel: u64,
    /// The name of the file that its module is in. It may be empty, which names no file.
    pub file: &'a str,
}

/// A run, as the words ask for it.
#[derive(Drop)]
pub struct Plan<'a> {
    /// How many workers decide, 1 to 64.
    pub workers: usize,
    /// The plugins in the order of the words, at most 16.
    pub specs: Vec<Spec<'a>>,
}

/// A storm, as the words ask for it.
#[derive(Drop)]
pub struct StormPlan<'a> {
    /// How many threads run cycles, 1 to 8.
    pub cycles: usize,
    /// How many threads bind pods, 1 to 8.
    pub binders: usize,
    /// Whether every third bind of each of these fails.
    pub is_flaky: bool,
    /// The plugins in the order of the words, at most 16.
    pub specs: Vec<Spec<'a>>,
}

/// A translation, as the words ask for it.
#[derive(Drop)]
pub struct TranslatePlan<'a> {
    /// The name of the scheduler whose pods are told.
    pub scheduler: &'a str,
    /// The keys of the labels that the site's rules read, with commas between them. It is empty
    /// where none are named.
    pub labels: &'a str,
    /// Whether pods are called by their uid.
    pub by_uid: bool,
    /// Whether each answer is an object that also says what is left out.
    pub answers: bool,
}

/// A cluster that is told as the API server tells it, and decided of, as the words ask for it.
#[derive(Drop)]
pub struct LivePlan<'a> {
    /// The name of the scheduler whose pods wait.
    pub scheduler: &'a str,
    /// The keys of the labels that the site's rules read, with commas between them. It is empty
    /// where none are named.
    pub labels: &'a str,
    /// By how many workers and which plugins is decided.
    pub plan: Plan<'a>,
}

/// What the program is asked to do.
#[derive(Drop)]
pub enum Words<'a> {
    /// To read a script from standard input, and to write the answers to standard output.
    Run(Plan<'a>),
    /// To run a script, and to tell of each cycle what was decided of each node.
    Explain(Plan<'a>),
    /// To have many threads apply the lines of a script and place its pods at once, and to say
    /// whether the state is right then.
    Storm(StormPlan<'a>),
    /// To say whether the module in the file of this name is accepted.
    Check(&'a str),
    /// To read objects of the Kubernetes API from standard input, and to write the lines of a
    /// script that they give.
    Translate(TranslatePlan<'a>),
    /// To tell what is read from standard input, objects of the Kubernetes API and orders, to a
    /// ledger and a desk, and to write the answers: which pod goes where, and which binds may be
    /// asked for.
    Live(LivePlan<'a>),
    /// To say which program this is, and its version.
    Version,
}
