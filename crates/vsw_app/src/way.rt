//! What a run does with the packets of its trace.

ghost use Rattle.std.specs.Prelude.{◌≡◌};
ghost use Rattle.vsw_app.specs.Way.{is_local};

/// How packets come to their workers, and where they go from there. One worker goes as `Forward` for `Stream`, too.
#[derive(Clone, Copy)]
pub(crate) enum Way {
    /// The packets of a round are read before its workers begin.
    Forward,
    /// The same, and packets are handed on between the ports.
    Deliver,
    /// The workers begin while the packets of their round are read.
    Stream,
}

impl Way {
    /// Whether packets are handed on between the ports.
    pub(crate) fn is_local(self) -> bool
        ensures { result ≡ is_local self }
    {
        match self {
            Way::Deliver => true,
            Way::Forward | Way::Stream => false,
        }
    }
}
