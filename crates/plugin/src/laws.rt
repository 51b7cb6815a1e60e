//! What holds of all kits. The functions do nothing: their contracts are the laws.
ghost use Rattle.plugin.specs.Laws.{KitsAreAlike, RulesAreCalls};

/// All kits of the same plugins are alike: they say the same, whatever each was asked before.
pub fn kits_are_alike()
    ensures { KitsAreAlike }
{
    whost::one_image();
}

/// What a kit's rules say of a pod, a node and what is used of it, is what each plugin's call gives
/// that begins from its image, with the records of these.
pub fn rules_are_calls()
    ensures { RulesAreCalls }
{}
