//! What holds of the layers of a port.

ghost use Rattle.vsw_promise.specs.Order.{StandInOrder};

/// The layers of a port are those that the file gives it, in the order of every policy.
pub fn order_laws()
    ensures { StandInOrder }
{}
