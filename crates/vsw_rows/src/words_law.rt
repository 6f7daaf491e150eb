//! What holds of packets with the same key words.

ghost use Rattle.vsw_rows.specs.WordsLaw.{WordsDecide};

/// Packets with the same key words, control, moment and sizes have the same fate and make the same changes,
/// whatever the layers.
pub fn words_laws()
    ensures { WordsDecide }
{}
