// The records of a payload (F1 to F6 of docs/RULES.md): how many bodies there are, and each as a part of the payload.
#![tactic(auto, using(crate::proofs::Laws::laws))]

ghost use Rattle.std.specs.Prelude.{◌≡◌, ◌<◌, ◌+◌, ◌^◌};
ghost use Rattle.records.specs.Records.{record_at, Counts, span_of, PartOf};
ghost use Rattle.records.specs.Steps.{Follows, IsBody};

use refusal::{MOST_PAYLOAD, Refusal};

// A byte's place in a payload.
#[derive(Clone, Copy)]
pub struct PayloadOffset(pub usize);

// A byte's place in a record's body.
#[derive(Clone, Copy)]
pub struct BodyOffset(pub usize);

impl BodyOffset {
    // The one step from a body to the payload, in which the body starts at `body`.
    pub fn in_payload(self, body: PayloadOffset) -> PayloadOffset
        requires { body.0 + self.0 < 2 ^ 64 }
        ensures { result.0 ≡ body.0 + self.0 }
    {
        PayloadOffset(body.0 + self.0)
    }
}

// Where a body lies in the payload, end excluded.
#[derive(Clone, Copy)]
pub struct Span {
    pub start: PayloadOffset,
    pub end: PayloadOffset,
}

fn record_at(payload: &[u8], at: usize) -> Option<usize>
    requires { 0 < at }
    ensures { result ≡ record_at payload.now at }
{
    if payload.len() <= 4 {
        return None;
    }
    let n = usize::from(*payload.get(at)?);
    if payload[at - 1] != 0x5B {
        return None;
    }
    if *payload.get(at + n)? != 0x5D {
        return None;
    }
    Some(n)
}

// The first body from a place on. The records after it start at its end and two bytes.
pub fn next_body(payload: &[u8], at: usize) -> Option<Span>
    requires { 0 < at }
    ensures { Follows payload.now at result }
{
    let mut place = at;
    while let Some(n) = record_at(payload, place) {
        if 2 <= n {
            return Some(Span {
                start: PayloadOffset(place + 2),
                end: PayloadOffset(place + n),
            });
        }
        place += n + 2;
    }
    None
}

// The number of bodies of a payload, or refusal 4.
pub fn count_records(payload: &[u8]) -> Result<usize, Refusal>
    ensures { Counts payload.now result }
{
    let length = payload.len();
    if MOST_PAYLOAD < length {
        return Err(Refusal::TooLong(length));
    }
    let mut count: usize = 0;
    let mut at: usize = 1;
    while let Some(span) = next_body(payload, at) {
        count += 1;
        at = span.end.0 + 2;
    }
    Ok(count)
}

// Where body k of a payload lies, from 0; an empty span at its start where there is none or the payload is too long.
// No Option: C is handed the two places in any case.
pub fn find_body(payload: &[u8], k: usize) -> Span
    ensures { IsBody payload.now k result }
{
    if payload.len() <= MOST_PAYLOAD {
        let mut left: usize = k;
        let mut at: usize = 1;
        while let Some(span) = next_body(payload, at) {
            if left == 0 {
                return span;
            }
            left -= 1;
            at = span.end.0 + 2;
        }
    }
    Span {
        start: PayloadOffset(0),
        end: PayloadOffset(0),
    }
}

// Body k of a payload, from 0: a part of the payload, which is empty where there is none or the payload is too long.
pub fn record_body(payload: &[u8], k: usize) -> &[u8]
    ensures { PartOf payload.entry result (span_of payload.now k) }
{
    let span = find_body(payload, k);
    let start = span.start.0;
    let end = span.end.0;
    &payload[start..end]
}
