//! What comes of a piece of work.

/// What comes of a piece of work on a share: what is left of it, or what is told of it.
#[derive(Drop)]
pub enum Worked<S, T> {
    More(S),
    Done(T),
}
