//! What stands near of the looks of a row, so that most commands pass over it without reading them.

ghost use Rattle.std.specs.Prelude.{◌≡◌, ◌<◌, ◌≤◌, ◌++◌, ◌∷◌, [], length, map, true, IfSome};
ghost use Rattle.std.specs.List.{list_all};
ghost use Rattle.vsw_flows.specs.Gists as spec;

use std::marker::Model;
use vsw_base::Dir;
use vsw_policy::Command;
use vsw_walk::Looked;

/// How many looks a row may have whose gists stand near: a row and these fill one line of a processor's cache.
const MOST: usize = 8;

/// Of a look: the place of its layer, its direction, and whether it found a pair.
#[derive(Clone, Copy, Debug, PartialEq, Eq)]
pub struct Gist {
    pub layer: u16,
    pub dir: Dir,
    pub found: bool,
}

/// The gists of a row's looks, in their order.
#[derive(Drop)]
pub struct Gists {
    items: [Gist; 8],
    len: usize,
}

impl Model for Gists {
    ghost use Rattle.std.specs.Prelude.{List, take, ◌≤◌};
    ghost use Rattle.vsw_flows.specs.declared.gists.Gist.{Gist};

    ghost Value = { List Gist };

    ghost view = { λ s. take s.len s.items };

    ghost invariant = { λ s. s.len ≤ 8 };
}

impl Gists {
    /// Of no look.
    fn new() -> Gists
        ensures { result ≡ [] }
    {
        let none = Gist {
            layer: 0,
            dir: Dir::Out,
            found: false,
        };
        Gists {
            items: [none; 8],
            len: 0,
        }
    }

    /// The gists.
    pub fn as_slice(&self) -> &[Gist]
        ensures all { result.now ≡ self.now }
        ensures room { length result.now ≤ 8 }
    {
        &self.items[..self.len]
    }

    /// Of one look more.
    fn push(&mut self, gist: Gist)
        requires { length self.old < 8 }
        ensures { self.new ≡ self.old ++ gist ∷ [] }
    {
        self.items[self.len] = gist;
        self.len += 1;
    }
}

/// The gists of these looks stand behind the others, unless they are too many, or a layer's place is too great.
fn add_all(gists: &mut Gists, looks: &[Looked]) -> bool
    ensures { result ≡ true → gists.new ≡ gists.old ++ map spec.gist_of looks.now }
{
    let Some((look, rest)) = looks.split_first() else {
        return true;
    };
    if gists.as_slice().len() == MOST {
        return false;
    }
    if look.layer > 65535 {
        return false;
    }
    gists.push(Gist {
        layer: look.layer as u16,
        dir: look.dir,
        found: look.found.is_some(),
    });
    add_all(gists, rest)
}

/// The gists of these looks, if they are few.
pub fn gists_of(looks: &[Looked]) -> Option<Gists>
    ensures { IfSome result (λ gists. gists ≡ map spec.gist_of looks.now) }
{
    let mut gists = Gists::new();
    if add_all(&mut gists, looks) {
        return Some(gists);
    }
    None
}

/// Whether the command sets a default that no packet of such a look is told: that of the other direction, or the look found a pair.
fn is_default_passed(command: &Command, gist: &Gist) -> bool
    ensures { result ≡ spec.is_default_passed command.now gist.now }
{
    match command {
        Command::SetDefault { dir, .. } => *dir != gist.dir || gist.found,
        _ => false,
    }
}

/// Whether the layer at a place is known not to be named.
#[inline(always)]
pub fn is_unnamed(named: &[bool; 128], place: u32) -> bool
    ensures { result ≡ spec.is_unnamed named.now place }
{
    match named.get(place as usize) {
        Some(named) => !*named,
        None => false,
    }
}

/// Whether a command is known to leave what a look is told by its gist alone.
fn passes(named: &[bool; 128], command: &Command, gist: &Gist) -> bool
    ensures { result ≡ spec.passes named.now command.now gist.now }
{
    is_unnamed(named, u32::from(gist.layer)) || is_default_passed(command, gist)
}

/// Whether it is so of all of them.
pub fn passes_all(named: &[bool; 128], command: &Command, gists: &[Gist]) -> bool
    ensures { result ≡ list_all (spec.passes named.now command.now) gists.now }
{
    gists.iter().all(|gist| passes(named, command, gist))
}
