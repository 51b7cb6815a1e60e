//! What words ask for at worked examples, and how an option's number is read. The functions do
//! nothing: their contracts are the facts.
ghost use Rattle.std.specs.Prelude.{◌≡◌, ℕ, List, Some, is_some};
ghost use Rattle.clap.specs.ValueTests.{is_unsigned_in};
ghost use Rattle.command.specs.Count.{most_of, number_for};
ghost use Rattle.command.specs.Examples.{WorkedExamples};
ghost use Rattle.command.specs.declared.count.Count.{Count};

/// What words ask for, as the contract of `words` says it, computed at examples.
pub fn worked_examples()
    ensures { WorkedExamples }
{}

/// A word is an option's number exactly where `clap`'s reader of whole numbers from 1 to the
/// option's most takes it.
pub fn counts_are_read_as_by_clap()
    ensures { (count : Count) (word : List ℕ) → is_some (number_for count (Some word))
        ≡ is_unsigned_in 1 (most_of count) word }
{}
