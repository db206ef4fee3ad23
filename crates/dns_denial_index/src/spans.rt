//! Spans of places on a line, and which of those around a place has the greatest start.
ghost use Rattle.std.specs.Prelude.{◌≡◌, ◌<◌, ◌^◌, ◌+◌, IfOk, OnOk, None, length, position, replicate};
ghost use Rattle.dns_denial_index.specs.Spans.{TableValue, counts_at, starts_at, first_from, start_of, AreInside};
ghost use Rattle.dns_denial_index.specs.Stack.{AreChained, AreCounting, AreFollowing, Stands};

use dns_record::NoMemory;
use std::alloc::Global;
use std::marker::Model;

/// What lies between two places.
#[derive(Clone, Copy, Drop)]
pub(crate) struct Span {
    /// The place before the first one in the span.
    pub(crate) start: usize,
    /// The place after the last one in the span. It may be at or before the start: the span is empty then.
    pub(crate) end: usize,
}

/// Spans, and for each place which of them counts there, and which start there. Contracts see the spans, and how many places
/// there are.
#[derive(Drop)]
pub(crate) struct SpanTable {
    spans: Vec<Span>,
    /// For each place the first span that starts there.
    first: Vec<Option<u32>>,
    /// For each span the next one in the list that starts at the same place.
    following: Vec<Option<u32>>,
    /// For each place the span that counts there.
    counting: Vec<Option<u32>>,
}

impl Model for SpanTable {
    ghost use Rattle.std.specs.Prelude.{length};
    ghost use Rattle.dns_denial_index.specs.Spans.{TableValue};
    ghost use Rattle.dns_denial_index.specs.Stack.{IsTable};

    ghost Value = { TableValue };

    ghost view = { λ t. record { spans = t.spans.items; places = length t.counting.items } };

    ghost invariant = { λ t. IsTable t.spans.items t.first.items t.following.items t.counting.items };
}

impl SpanTable {
    /// The table of spans that start at one of so many places.
    pub(crate) fn new(spans: Vec<Span>, places: usize) -> Result<SpanTable, NoMemory>
        requires few { length spans.items < 2 ^ 32 }
        requires inside { AreInside places spans.items }
        ensures { IfOk result (λ t. t ≡ record { spans = spans.items; places = places }) }
    {
        let alloc = *spans.allocator();
        let Chains { first, following } = chained(alloc, spans.as_slice(), places)?;
        let counting = sweep(
            alloc,
            spans.as_slice(),
            first.as_slice(),
            following.as_slice(),
        )?;
        Ok(SpanTable {
            spans,
            first,
            following,
            counting,
        })
    }

    /// The number of the span that counts at a place: of those around it the first with the greatest start.
    pub(crate) fn counting(&self, place: usize) -> Option<u32>
        requires { place < self.now.places }
        ensures { result ≡ position (counts_at place self.now.spans) self.now.spans }
    {
        self.counting[place]
    }

    /// The number of the first span that starts at a place.
    pub(crate) fn first(&self, place: usize) -> Option<u32>
        requires { place < self.now.places }
        ensures { result ≡ first_from (starts_at place) 0 self.now.spans }
    {
        self.first[place]
    }

    /// The number of the next span in the list that starts where this one does.
    pub(crate) fn following(&self, number: u32) -> Option<u32>
        requires { number < length self.now.spans }
        ensures { result ≡ first_from (starts_at (start_of self.now.spans number)) (number + 1) self.now.spans }
    {
        self.following[number as usize]
    }
}

// Which spans start at one place.
#[derive(Drop)]
struct Chains {
    first: Vec<Option<u32>>,
    following: Vec<Option<u32>>,
}

// Goes over the spans from the last to the first.
fn chained(alloc: Global, spans: &[Span], places: usize) -> Result<Chains, NoMemory>
    requires few { length spans.now < 2 ^ 32 }
    requires inside { AreInside places spans.now }
    ensures { IfOk result (λ c. AreChained spans.now 0 places c.first.items c.following.items) }
{
    let mut first = nothing(alloc, places)?;
    let mut following = nothing(alloc, spans.len())?;
    let mut number = spans.len();
    'spans: while number > 0 {
        number -= 1;
        let start = spans[number].start;
        following[number] = first[start];
        first[start] = Some(number as u32);
    }
    Ok(Chains { first, following })
}

// So many times nothing.
fn nothing(alloc: Global, count: usize) -> Result<Vec<Option<u32>>, NoMemory>
    ensures { IfOk result (λ v. v.items ≡ replicate count None) }
{
    Ok(vec![in alloc; None; count]?)
}

// For each place the span that counts there. The spans around the place lie in a stack: the top has the greatest start.
fn sweep(
    alloc: Global,
    spans: &[Span],
    first: &[Option<u32>],
    following: &[Option<u32>],
) -> Result<Vec<Option<u32>>, NoMemory>
    requires { AreChained spans.now 0 (length first.now) first.now following.now }
    ensures { IfOk result (λ v. AreCounting spans.now (length first.now) v.items) }
{
    let mut counting = Vec::new(alloc);
    let mut around = Vec::new(alloc);
    for place in 0..first.len() {
        counting.push(top_at(place, spans, following, &mut around)?)?;
        if let Some(number) = first[place] {
            around.push(number)?;
        }
    }
    Ok(counting)
}

// The top of the stack at a place, when what is over there was let go. In the place of each comes the next span that starts
// where it does.
fn top_at(
    place: usize,
    spans: &[Span],
    following: &[Option<u32>],
    around: &mut Vec<u32>,
) -> Result<Option<u32>, NoMemory>
    requires chained { AreFollowing spans.now following.now }
    requires stands { Stands spans.now place around.old.items }
    ensures top { IfOk result (λ top. top ≡ position (counts_at place spans.now) spans.now) }
    ensures stands { OnOk result (Stands spans.now place around.new.items) }
{
    'over: while let Some(number) = around.pop() {
        if place < spans[number as usize].end {
            around.push(number)?;
            return Ok(Some(number));
        }
        if let Some(next) = following[number as usize] {
            around.push(next)?;
        }
    }
    Ok(None)
}
