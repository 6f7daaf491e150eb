//! Prefixes as ranges of addresses.

ghost use Rattle.std.specs.Prelude.{◌≡◌, ◌<◌, ◌^◌, IfOk, IfSome, All, filter_map};
ghost use Rattle.vsw_index.specs.Span as spec;

use crate::memory::push;
use crate::placed_prefix::PlacedPrefix;
use std::alloc::Global;
use vsw_base::NoMemory;

/// The addresses of a prefix, from the lowest to the highest, and its place.
#[derive(Clone, Copy)]
pub struct Span {
    pub low: u32,
    pub high: u32,
    pub place: u32,
}

/// The span of these ends.
fn between(low: u32, high: u32, place: u32) -> Span
    ensures ends { (result.low ≡ low) × (result.high ≡ high) }
    ensures place { result.place ≡ place }
    ensures small { result.place < 2 ^ 32 }
{
    Span { low, high, place }
}

/// The addresses that the prefix holds; none where it has more than 32 bits.
fn span_of(item: &PlacedPrefix) -> Option<Span>
    ensures value { result ≡ spec.span_of item.now }
    ensures small { IfSome result (λ s. s.place < 2 ^ 32) }
{
    let bits = item.prefix.bits;
    if bits > 32 {
        return None;
    }
    let shift = 32 - u32::from(bits);
    let front = u64::from(item.prefix.value.number()) >> shift;
    let low = front << shift;
    let next = (front + 1) << shift;
    Some(between(low as u32, (next - 1) as u32, item.place))
}

/// The spans of the items that hold anything, in the items' order.
pub fn spans_of(alloc: Global, items: &[PlacedPrefix]) -> Result<Vec<Span>, NoMemory>
    ensures spans { IfOk result (λ v. v.items ≡ filter_map spec.span_of items.now) }
    ensures small { IfOk result (λ v. All (λ s. s.place < 2 ^ 32) v.items) }
{
    let mut spans: Vec<Span> = Vec::new(alloc);
    for item in items {
        if let Some(span) = span_of(item) {
            push(&mut spans, span)?;
        }
    }
    Ok(spans)
}
