//! Whether words say a row.

ghost use Rattle.std.specs.Prelude.{◌≡◌, List, ℕ, drop, take, true, false};
ghost use Rattle.vsw_base.specs.declared.fate.Verdict.{Verdict};
ghost use Rattle.vsw_base.specs.declared.fate.Verdict.TheVariants.{Pass};
ghost use Rattle.vsw_base.specs.declared.flow.Ufid.{Ufid};
ghost use Rattle.vsw_offload.specs.Rows.{AreWords, IsRow};
ghost use Rattle.vsw_transpose.specs.declared.act.Act.{Act};
ghost use Rattle.vsw_transpose.specs.Fits as fit;
ghost use Rattle.vsw_words.specs.Key.{key_words};
ghost use Rattle.vsw_words.specs.Law.{IsId};
ghost use Rattle.vsw_words.specs.Reading.{IsBody, IsTold};
ghost use Rattle.vsw_words.specs.Row.{body_words};

use vsw_base::{Dir, Stack, Ufid, Verdict};
use vsw_words::{Body, body_to, identity_to, row_of};

/// Rooms for what a row says. Make them once.
#[derive(Drop)]
pub(crate) struct Rooms {
    pub id: Ufid,
    pub body: Body,
    pub words: [u64; 73],
}

impl Rooms {
    pub(crate) fn new() -> Rooms {
        Rooms {
            id: Ufid {
                dir: Dir::Out,
                stack: Stack::room(),
            },
            body: Body::room(),
            words: [0; 73],
        }
    }
}

/// Reads the identity of a row's words. False exactly where they are of none.
fn identity_in(words: &[u64; 73], out: &mut Ufid) -> bool
    ensures told { result ≡ true → IsId out.new × (take 16 words.now ≡ key_words out.new.dir out.new.stack) }
    ensures back { (id : Ufid) → IsId id → take 16 words.now ≡ key_words id.dir id.stack → (result ≡ true) × (out.new ≡ id) }
{
    match words.first_chunk::<16>() {
        None => false,
        Some(key) => identity_to(key, out),
    }
}

/// Reads the body of a row's words. False exactly where they are of none.
pub(crate) fn body_in(words: &[u64; 73], out: &mut Body) -> bool
    ensures told { result ≡ true → IsTold (drop 16 words.now) out.new.verdict out.new.by out.new.until }
    ensures back { (verdict : Verdict) (by : List Act) (until : ℕ) → IsBody verdict by → drop 16 words.now ≡ body_words verdict by until → (result ≡ true) × (out.new.verdict ≡ verdict) × (out.new.by ≡ by) × (out.new.until ≡ until) }
{
    match words.last_chunk::<57>() {
        None => false,
        Some(body) => body_to(body, out),
    }
}

/// Whether the acts of a pass fit the headers.
fn suits(body: &Body, stack: &Stack) -> bool
    ensures told { result ≡ true → body.now.verdict ≡ Pass → fit.fits body.now.by stack.now ≡ true }
    ensures back { (body.now.verdict ≡ Pass → fit.fits body.now.by stack.now ≡ true) → result ≡ true }
{
    match body.verdict {
        Verdict::Pass => body.by.fits(stack),
        Verdict::Rule { .. } => true,
        Verdict::Default { .. } => true,
    }
}

/// Whether the words are the same.
fn are_same(left: &[u64; 73], right: &[u64; 73]) -> bool
    ensures told { result ≡ true → left.now ≡ right.now }
    ensures back { left.now ≡ right.now → result ≡ true }
{
    *left == *right
}

/// Whether the words say a row whose acts fit its packets' headers. What was read of them is written again, and compared.
pub(crate) fn is_row(words: &[u64; 73], rooms: &mut Rooms) -> bool
    ensures told { result ≡ true → AreWords words.now → IsRow words.now }
    ensures back { IsRow words.now → result ≡ true }
{
    if !identity_in(words, &mut rooms.id) {
        return false;
    }
    if !body_in(words, &mut rooms.body) {
        return false;
    }
    if !suits(&rooms.body, &rooms.id.stack) {
        return false;
    }
    // It tells the proof that the headers are those of a stack.
    let _ = rooms.id.stack.headers();
    row_of(
        &rooms.id,
        &rooms.body.verdict,
        &rooms.body.by,
        rooms.body.until,
        &mut rooms.words,
    );
    are_same(&rooms.words, words)
}
