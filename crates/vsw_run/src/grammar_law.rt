//! What holds of the grammar.

ghost use Rattle.vsw_run.specs.GrammarLaw.{OneReading, ReadsGrammar, RefusesOthers};

/// The words are of the grammar exactly where they are read, with what they ask for; so the grammar has one
/// reading, and all other words are refused.
pub fn grammar_laws()
    ensures grammar { ReadsGrammar }
    ensures others { RefusesOthers }
    ensures one { OneReading }
{}
