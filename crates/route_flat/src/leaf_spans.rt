// A span for each leaf.
ghost use Rattle.std.specs.Prelude.{◌≡◌, ◌<◌, ◌≤◌, ◌-◌, drop, length, replicate, slice_index_or, IsTrue};

use port_net::Span;
use std::marker::Model;

/// A span for each leaf. Those at the end that are the same, as of cells without ports, are kept
/// once. It is seen as the spans.
#[derive(Drop)]
pub(crate) struct LeafSpans {
    kept: Vec<Span>,
    rest: Span,
    shared: usize,
}

impl Model for LeafSpans {
    ghost use Rattle.std.specs.Prelude.{◌+◌, ◌<◌, ◌^◌, ◌++◌, List, length, replicate};
    ghost use Rattle.port_net.specs.declared.span.Span.{Span as AnySpan};

    ghost Value = { List AnySpan };

    ghost view = { λ s. s.kept.items ++ replicate s.shared s.rest };

    ghost invariant = { λ s. length s.kept.items + s.shared < 2 ^ 64 };
}

impl LeafSpans {
    /// These spans.
    pub(crate) fn of(spans: Vec<Span>) -> LeafSpans
        ensures { result ≡ spans.items }
    {
        let rest = last_of(&spans);
        let shared = shared_at_end(&spans, rest);
        let mut kept = spans;
        let left = kept.len() - shared;
        kept.truncate(left);
        kept.shrink_to_fit();
        LeafSpans { kept, rest, shared }
    }

    /// The number of leaves.
    pub(crate) fn len(&self) -> usize
        ensures { result ≡ length self.now }
    {
        self.kept.len() + self.shared
    }

    /// The span of a leaf.
    pub(crate) fn at(&self, leaf: u32) -> Span
        requires { leaf < length self.now }
        ensures { result ≡ slice_index_or self.now leaf result }
    {
        span_at(&self.kept, leaf as usize, self.rest)
    }
}

/// The span that stands there, or this one.
fn span_at(spans: &[Span], place: usize, rest: Span) -> Span
    ensures { result ≡ slice_index_or spans.now place rest }
{
    match spans.get(place) {
        Some(span) => *span,
        None => rest,
    }
}

/// The last span, or an empty one.
fn last_of(spans: &[Span]) -> Span {
    match spans.last() {
        Some(span) => *span,
        None => Span { first: 0, count: 0 },
    }
}

/// How many spans at the end are this one.
fn shared_at_end(spans: &[Span], rest: Span) -> usize
    ensures within { result ≤ length spans.now }
    ensures same { drop (length spans.now - result) spans.now ≡ replicate result rest }
{
    let mut first = spans.len();
    'ends: while first > 0 {
        if !is_same(spans[first - 1], rest) {
            return spans.len() - first;
        }
        first -= 1;
    }
    spans.len()
}

fn is_same(a: Span, b: Span) -> bool
    ensures { IsTrue result → a ≡ b }
{
    let first = a.first == b.first;
    first & (a.count == b.count)
}
