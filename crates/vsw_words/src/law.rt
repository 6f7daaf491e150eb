//! What holds of the words.

ghost use Rattle.vsw_words.specs.Law.{Decodes, TellsApart, EndsInZero};

/// The words of an identity tell it, and a row is 0 beyond its words in use.
pub fn laws()
    ensures decodes { Decodes }
    ensures apart { TellsApart }
    ensures zero { EndsInZero }
{}
