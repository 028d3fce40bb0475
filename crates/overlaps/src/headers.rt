// The headers of an accepted frame text, and what their V lines tell of two of them.
ghost use Rattle.std.specs.Prelude.{◌≡◌, Ok};
ghost use Rattle.text.specs.Place.{part_of};
ghost use Rattle.text.specs.Records.{Readable};
ghost use Rattle.frame_text.specs.Form.{names};
ghost use Rattle.frame_text.specs.Rules.{rules, verdict};
ghost use Rattle.frame_definition.specs.Definition.{is_key, some?};
ghost use Rattle.overlaps.specs.Overlaps.{greater, of_one_base, together, tell_one, tell_each, tell_all, tell, apart_from_all, harmless};
ghost use Rattle.overlaps.specs.Read.{base_of, said_at, valids_at, head_at, heads_at, FindsHead, FindsNumbered};

use crate::fields::is_decided;
use crate::lines::same_part;
use frame_definition::{NextValidation, next_validation};
use header_paths::part_of;
use text::{Optional, Part, Place};

// A header: its base key, and the place behind its H line.
#[derive(Clone, Copy)]
pub struct Head {
    pub base: Optional,
    pub place: Place,
}

// The next H line from a place on.
fn next_header(text: &[u8], start: Place) -> Option<Head>
    requires { Readable rules text.now start }
    ensures { FindsHead text.now start result }
{
    let mut place = start;
    while place.at < text.len() {
        let at = place.at;
        if text[at] != b'H' {
            place = place.pass(text);
            continue;
        }
        let line = place.step(text);
        let next = line.next;
        return Some(Head {
            base: line.optional(text, 2, 255),
            place: next,
        });
    }
    None
}

// The header of a number.
pub fn find_header(text: &[u8], number: usize) -> Option<Head>
    requires { verdict text.now ≡ Ok tt }
    ensures { FindsNumbered text.now number result }
{
    let mut place = Place::start();
    let mut left = number;
    loop {
        let head = next_header(text, place)?;
        if left == 0 {
            return Some(head);
        }
        left -= 1;
        place = head.place;
    }
}

fn greater(a: u64, b: u64) -> u64
    ensures { result ≡ greater a b }
{
    if a <= b { b } else { a }
}

// What a V of each header tells.
fn tell_one(
    text: &[u8],
    one: Place,
    other: Place,
    path: Part,
    value: u16,
    beside: Part,
    another: u16,
) -> u64
    requires { (Readable rules text.now one) × (Readable rules text.now other) }
    ensures { result ≡ tell_one (said_at text.now one) (said_at text.now other)
        (record { path = names (part_of text.now path); value = value })
        (record { path = names (part_of text.now beside); value = another }) }
{
    if !same_part(text, path, beside) {
        return 0;
    }
    if value == another {
        return 1;
    }
    if is_decided(
        text,
        one,
        other,
        part_of(text, path.start as u64, path.len as u64),
    ) {
        3
    } else {
        2
    }
}

// The most that a V of one header and all V of the other tell.
fn tell_each(text: &[u8], one: Place, other: Place, path: Part, value: u16) -> u64
    requires { (Readable rules text.now one) × (Readable rules text.now other) }
    ensures { result ≡ tell_each (said_at text.now one) (said_at text.now other)
        (record { path = names (part_of text.now path); value = value }) (valids_at text.now other) }
{
    let mut place = other;
    let mut most = 0;
    while let NextValidation::At {
        path: beside,
        value: another,
        place: next,
    } = next_validation(text, place)
    {
        most = greater(
            most,
            tell_one(text, one, other, path, value, beside, another),
        );
        place = next;
    }
    most
}

// The most that all V of both tell.
fn tell_all(text: &[u8], one: Place, other: Place) -> u64
    requires { (Readable rules text.now one) × (Readable rules text.now other) }
    ensures { result ≡ tell_all (said_at text.now one) (said_at text.now other) (valids_at text.now one)
        (valids_at text.now other) }
{
    let mut place = one;
    let mut most = 0;
    while let NextValidation::At {
        path,
        value,
        place: next,
    } = next_validation(text, place)
    {
        most = greater(most, tell_each(text, one, other, path, value));
        place = next;
    }
    most
}

// Is this base key k?
fn is_base(base: Optional, k: u16) -> bool
    ensures { result ≡ is_key k (base_of base) }
{
    match base {
        Optional::Given(n) => n == k,
        Optional::Missing => false,
        Optional::Wrong => false,
    }
}

// Is this a base key, and that the same?
fn of_one_base(a: Optional, b: Optional) -> bool
    ensures { result ≡ of_one_base (base_of a) (base_of b) }
{
    match a {
        Optional::Given(k) => is_base(b, k),
        Optional::Missing => false,
        Optional::Wrong => false,
    }
}

// Has the header at a place a V?
fn is_validated(text: &[u8], place: Place) -> bool
    requires { Readable rules text.now place }
    ensures { result ≡ some? (valids_at text.now place) }
{
    matches!(next_validation(text, place), NextValidation::At { .. })
}

// Are both candidates for one base key?
fn are_together(text: &[u8], one: Head, other: Head) -> bool
    requires { (Readable rules text.now one.place) × (Readable rules text.now other.place) }
    ensures { result ≡ together (head_at text.now one) (head_at text.now other) }
{
    let key = one.base;
    let beside = other.base;
    if !of_one_base(key, beside) {
        return false;
    }
    if !is_validated(text, one.place) {
        return false;
    }
    is_validated(text, other.place)
}

// What is told of two headers.
pub fn tell_heads(text: &[u8], one: Head, other: Head) -> u64
    requires { (Readable rules text.now one.place) × (Readable rules text.now other.place) }
    ensures { result ≡ tell (head_at text.now one) (head_at text.now other) }
{
    if !are_together(text, one, other) {
        return 4;
    }
    tell_all(text, one.place, other.place)
}

// Is this header apart from all behind it?
fn is_apart(text: &[u8], one: Head) -> bool
    requires { Readable rules text.now one.place }
    ensures { result ≡ apart_from_all (head_at text.now one) (heads_at text.now one.place) }
{
    let mut place = one.place;
    while let Some(other) = next_header(text, place) {
        if tell_heads(text, one, other) < 3 {
            return false;
        }
        place = other.place;
    }
    true
}

// Are every two headers of an accepted text apart?
pub fn all_apart(text: &[u8]) -> bool
    requires { verdict text.now ≡ Ok tt }
    ensures { result ≡ harmless text.now }
{
    let mut place = Place::start();
    while let Some(one) = next_header(text, place) {
        if !is_apart(text, one) {
            return false;
        }
        place = one.place;
    }
    true
}
