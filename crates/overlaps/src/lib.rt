// May two headers of a frame text hold together? Their V lines on one path with other values keep them apart, where the path finds the same field by both.
#![tactic(auto, using(crate::proofs::Laws::decided_laws, crate::proofs::Laws::led_laws, crate::proofs::Laws::laws, crate::proofs::Laws::meet_laws))]

mod fields;
mod headers;
mod lines;

ghost use Rattle.std.specs.Prelude.{◌≡◌, Ok};
ghost use Rattle.frame_text.specs.Rules.{verdict};
ghost use Rattle.overlaps.specs.Overlaps.{tell_numbers};
ghost use Rattle.overlaps.specs.Calls.{overlap_of, TellsApart, TellsHarmless};

use frame_text::check_frame_text;
use headers::tell_heads;
pub use headers::{Head, all_apart, find_header};
use refusal::Refusal;

// What is told of two headers.
#[derive(Clone, Copy)]
pub enum Overlap {
    // No MPDU is held by both.
    Apart,
    // They are not candidates for one base key.
    OtherBase,
    // It cannot be told: they have V lines on no common path,
    NoPath,
    // or only with the same values,
    SameValues,
    // or with other values, of fields of their own that the path may find at other places.
    OwnFields,
}

// What is told of the headers of two numbers, by an accepted text: 4 where there is none of a number. A number and no Overlap: of several the greatest is
// told.
pub fn tell_numbers(text: &[u8], a: usize, b: usize) -> u64
    requires { verdict text.now ≡ Ok tt }
    ensures { result ≡ tell_numbers text.now a b }
{
    let Some(one) = find_header(text, a) else {
        return 4;
    };
    let Some(other) = find_header(text, b) else {
        return 4;
    };
    tell_heads(text, one, other)
}

// The word for what is told.
fn overlap_of(told: u64) -> Overlap
    ensures { result ≡ overlap_of told }
{
    match told {
        0 => Overlap::NoPath,
        1 => Overlap::SameValues,
        2 => Overlap::OwnFields,
        3 => Overlap::Apart,
        _ => Overlap::OtherBase,
    }
}

// Whether the headers of two numbers can hold together, or why it cannot be told.
pub fn tell_apart(text: &[u8], a: usize, b: usize) -> Result<Overlap, Refusal>
    ensures { TellsApart text.now a b result }
{
    check_frame_text(text)?;
    Ok(overlap_of(tell_numbers(text, a, b)))
}

// Whether no order of the H blocks matters.
pub fn is_harmless(text: &[u8]) -> Result<bool, Refusal>
    ensures { TellsHarmless text.now result }
{
    check_frame_text(text)?;
    Ok(all_apart(text))
}
