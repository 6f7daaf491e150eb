//! A line of a port in a report.

/// Who tells, of which packet or line of the commands, whether as an entry, at which count, and what.
#[derive(Clone, Copy)]
pub struct Line<'t> {
    pub by: &'t str,
    pub item: u32,
    pub is_entry: bool,
    pub count: u32,
    pub rest: &'t str,
}

/// The count behind a `+`, which is an entry's number, or behind an `@`.
fn count_of(text: &str) -> Option<(bool, u32)> {
    match text.strip_prefix('+') {
        Some(number) => Some((true, number.parse::<u32>().ok()?)),
        None => Some((false, text.strip_prefix('@')?.parse::<u32>().ok()?)),
    }
}

/// A line's parts.
pub fn line_of(text: &str) -> Option<Line<'_>> {
    let (by, rest) = text.split_once(' ')?;
    let (item, rest) = rest.split_once(' ')?;
    let (count, rest) = rest.split_once(' ')?;
    let (is_entry, count) = count_of(count)?;
    let item = item.parse::<u32>().ok()?;
    Some(Line {
        by,
        item,
        is_entry,
        count,
        rest,
    })
}
