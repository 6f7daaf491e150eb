//! The lines of a file.

ghost use Rattle.std.specs.Prelude.{◌≡◌, ◌≤◌, ◌<◌, ◌∷◌, length};
ghost use Rattle.std.specs.List.{position};
ghost use Rattle.std.specs.Iterator.{YieldsFirstRef, item_count};
ghost use Rattle.vsw_commandfile.specs.Lines.{is_feed, lines_of, is_blank};

fn place_of_feed(bytes: &[u8]) -> Option<usize>
    ensures { result ≡ position is_feed bytes.now }
{
    bytes.iter().position(|byte| *byte == b'\n')
}

/// The first line of these bytes, and what stands behind its line feed.
fn first_line(bytes: &[u8]) -> (&[u8], &[u8])
    requires { 0 < length bytes.now }
    ensures { lines_of bytes.now ≡ result.0.now ∷ lines_of result.1.now }
{
    match place_of_feed(bytes) {
        Some(end) => (&bytes[..end], &bytes[end + 1..]),
        None => (bytes, &[]),
    }
}

/// The lines of these bytes, each without its line feed. None is copied.
#[derive(Drop)]
pub(crate) struct Lines<'a> {
    rest: &'a [u8],
}

impl<'a> Lines<'a> {
    pub(crate) fn of(bytes: &'a [u8]) -> Lines<'a>
        ensures { result.rest.now ≡ bytes.now }
    {
        Lines { rest: bytes }
    }
}

impl<'a> Iterator for Lines<'a> {
    type Item = &'a [u8];

    ghost next_gives = { YieldsFirstRef (λ s. lines_of s.rest.now) };

    ghost remaining = { item_count (λ s. lines_of s.rest.now) };

    #[tactic(auto, using(crate::proofs::Cuts::no_lines))]
    fn next(&mut self) -> Option<&'a [u8]> {
        if self.rest.is_empty() {
            return None;
        }
        let (line, rest) = first_line(self.rest);
        self.rest = rest;
        Some(line)
    }
}

/// How many lines the bytes of a file have.
pub(crate) fn count_lines(bytes: &[u8]) -> usize
    requires { length bytes.now ≤ 16777216 }
    ensures { result ≡ length (lines_of bytes.now) }
{
    Lines::of(bytes).count()
}

/// Whether a line has nothing but spaces, tabs and carriage returns.
pub(crate) fn is_blank(line: &[u8]) -> bool
    ensures { result ≡ is_blank line.now }
{
    line.iter()
        .all(|byte| matches!(*byte, b' ' | b'\t' | b'\r'))
}
