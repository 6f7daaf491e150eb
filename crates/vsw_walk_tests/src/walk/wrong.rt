//! How a trial by a table fails.

/// What came out otherwise.
#[derive(Clone, Copy, Debug)]
pub enum Wrong {
    /// What the first step needs couldn't be made.
    Start,
    /// The step or the row at this place of the table.
    Step(usize),
}
