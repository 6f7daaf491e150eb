//! What holds of good rows.

ghost use Rattle.vsw_rows.specs.Law.{RowAnswers};

/// A good row answers the packets of its key.
pub fn laws()
    ensures answers { RowAnswers }
{}
