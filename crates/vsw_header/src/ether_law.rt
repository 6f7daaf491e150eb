//! What holds of the header's bytes.

ghost use Rattle.vsw_header.specs.Ether.{ReadsBack};

/// The reader gives back what the writer was given.
pub fn ether_laws()
    ensures { ReadsBack }
{}
