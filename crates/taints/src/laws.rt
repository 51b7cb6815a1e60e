//! What the rules say at worked examples. The function does nothing: its contract is the table.
ghost use Rattle.taints.specs.Examples.{WorkedExamples};

/// The rules by which the contracts of this crate's calls say what they answer, computed at
/// examples.
pub fn worked_examples()
    ensures { WorkedExamples }
{}
