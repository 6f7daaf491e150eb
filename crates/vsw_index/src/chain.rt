//! Spans in order, each with the way to the wider spans around it.

ghost use Rattle.std.specs.Prelude.{◌≡◌, ℕ, ◌<◌, ◌≤◌, ◌-◌, IfOk, IfSome, All, length, map, slice_index_or};
ghost use Rattle.std.specs.List.{AllWithin};
ghost use Rattle.std.specs.List.Sorted.{IsNonDecreasingBy};
ghost use Rattle.vsw_index.specs.Chain.{AreNodes, AreInOrder, IsNode, IsChain, least_in, first_place};
ghost use Rattle.vsw_index.specs.declared.span.Span.{Span};
ghost use Rattle.vsw_index.specs.declared.chain.Node.{Node};

use crate::lesser_place::lesser;
use crate::memory::push;
use crate::span::Span;
use std::alloc::Global;
use vsw_base::NoMemory;

/// A span, and where those around it are.
#[derive(Clone, Copy)]
pub struct Node {
    pub span: Span,
    /// How many nodes are before those of the same prefix.
    pub first: usize,
    /// How many nodes there are up to those of the next wider prefix around this one.
    pub up: usize,
}

/// How many nodes there are up to the last that reaches the address.
fn reaching(nodes: &[Node], low: u32) -> usize
    requires linked { AreNodes nodes.now }
    requires below { All (λ (n : Node). n.span.low ≤ low) nodes.now }
    ensures within { result ≤ length nodes.now }
    ensures passed { AllWithin (λ (n : Node). n.span.high < low) nodes.now result (length nodes.now) }
    ensures reached { (d : Node) → 0 < result → low ≤ (slice_index_or nodes.now (result - 1) d).span.high }
{
    let mut left = nodes.len();
    while left > 0 {
        let last = &nodes[left - 1];
        if low <= last.span.high {
            break;
        }
        left = last.up;
    }
    left
}

/// The node of a span that comes behind the others.
fn linked(nodes: &[Node], span: &Span) -> Node
    requires linked { AreNodes nodes.now }
    requires below { All (λ (n : Node). n.span.low ≤ span.now.low) nodes.now }
    ensures node { IsNode nodes.now (length nodes.now) result }
    ensures span { result.span ≡ span.now }
{
    match nodes.last() {
        Some(last) if last.span.low == span.low && last.span.high == span.high => Node {
            span: *span,
            first: last.first,
            up: last.up,
        },
        _ => Node {
            span: *span,
            first: nodes.len(),
            up: reaching(nodes, span.low),
        },
    }
}

/// The nodes of spans in order.
pub fn chain_of(alloc: Global, spans: &[Span]) -> Result<Vec<Node>, NoMemory>
    requires { AreInOrder spans.now }
    ensures chain { IfOk result (λ v. IsChain v.items) }
    ensures spans { IfOk result (λ v. map (λ (n : Node). n.span) v.items ≡ spans.now) }
{
    let mut nodes: Vec<Node> = Vec::new(alloc);
    for span in spans {
        let node = linked(&nodes, span);
        push(&mut nodes, node)?;
    }
    Ok(nodes)
}

/// Of nodes of one prefix, which stand by place: the least place at or above `from`.
fn place_from(nodes: &[Node], from: u32) -> Option<u32>
    requires { IsNonDecreasingBy (λ (n : Node). n.span.place) nodes.now }
    ensures { result ≡ first_place nodes.now from }
{
    let at = nodes.partition_point(|node| node.span.place < from);
    if at == nodes.len() {
        return None;
    }
    Some(nodes[at].span.place)
}

/// The least place at or above `from` whose span holds the address. Only the prefixes around the last
/// one that begins at or before the address are looked at.
pub fn climb(nodes: &[Node], address: u32, from: u32) -> Option<u32>
    requires { IsChain nodes.now }
    ensures { result ≡ least_in nodes.now address from }
{
    let mut left = nodes.partition_point(|node| node.span.low <= address);
    let mut found = None;
    while left > 0 {
        let node = &nodes[left - 1];
        if address <= node.span.high {
            found = lesser(place_from(&nodes[node.first..left], from), found);
        }
        left = node.up;
    }
    found
}
