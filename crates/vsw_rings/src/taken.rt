//! What goes through a ring.

/// What is taken out of a ring.
#[derive(Drop)]
pub enum Taken<T> {
    Item(T),
    /// Nothing follows.
    End,
}
