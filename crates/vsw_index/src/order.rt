//! The order in which a trie keeps its spans.

ghost use Rattle.std.specs.Prelude.{◌≡◌, ◌<◌, ◌^◌, All};
ghost use Rattle.std.specs.List.Sorted.{IsPermutation};
ghost use Rattle.vsw_index.specs.Chain as spec;

use crate::span::Span;

/// How many addresses there are.
const ADDRESSES: u128 = 0x1_0000_0000;

fn key(span: &Span) -> u128
    ensures { result ≡ spec.key span.now }
{
    let ends = u128::from(span.low) * ADDRESSES + u128::from(u32::MAX - span.high);
    ends * ADDRESSES + u128::from(span.place)
}

/// Puts spans by their low end, then the wider first, then by place.
pub fn put_in_order(spans: &mut Vec<Span>)
    requires { All (λ s. s.place < 2 ^ 32) spans.old.items }
    ensures permutation { IsPermutation spans.old.items spans.new.items }
    ensures in_order { spec.AreInOrder spans.new.items }
{
    spans.sort_unstable_by_key(|span| key(span));
}
