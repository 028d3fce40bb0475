// What the attributes of a tag say, as fields of a line, written into room for a definition text. X5, X6 and X9 of docs/RULES.md.
#![tactic(auto, using(crate::proofs::Laws::laws))]

ghost use Rattle.std.specs.Prelude.{[], ◌∷◌, ◌+◌, drop};
ghost use Rattle.text.specs.Text.{split, fields};
ghost use Rattle.text.specs.Scan.{cut};
ghost use Rattle.numerals.specs.Numerals.{decimal as decimalOf};
ghost use Rattle.xml_schema.specs.Schema.{form_of, name_of, quote, ampersand, semicolon};
ghost use Rattle.xml_values.specs.Values.{meant, parts, undo, unsigned, strip, numeral, in_decimal, says, unsaid};
ghost use Rattle.xml_tags.specs.Tags.{told, part, fields_of};
ghost use Rattle.xml_draft.specs.Draft.{Laid};

use numerals::{ROOM as DIGITS, decimal};
use text::{MOST_BYTES, find};
use xml_schema::{
    FURTHER_FLAG, HEX_NUMBER, NUMBER, OPTIONAL_NUMBER, OPTIONAL_WORDS, PAST_DIGITS, WORDS, form_of,
    name_start, next_entry,
};
use xml_tags::value_of;
use xml_values::{count_start, digit_for, entity, read_numeral};

// Room for every definition text.
pub const ROOM: usize = MOST_BYTES;

// Some place past the room. No Option: it goes on through every later write without a test.
const OVER: usize = ROOM + 1;

// Writes b at n, if there is room; answers the place behind it.
pub fn put_byte(out: &mut [u8; ROOM], n: usize, b: u8) -> usize
    ensures { Laid out.old out.new n result (b ∷ []) }
{
    if n < ROOM {
        out[n] = b;
        return n + 1;
    }
    OVER
}

// Writes s from n on, as far as there is room.
pub fn put_all(out: &mut [u8; ROOM], n: usize, s: &[u8]) -> usize
    ensures { Laid out.old out.new n result s.now }
{
    let mut next = n;
    for b in s {
        next = put_byte(out, next, *b);
    }
    next
}

// ---- words

// Writes what stands behind an `&`: the byte that is named, and the rest.
fn put_part(out: &mut [u8; ROOM], n: usize, p: &[u8]) -> usize
    ensures { let p = p.entry.now in Laid out.old out.new n result (meant p ∷ drop (cut semicolon p + 1) p) }
{
    let k = find(p, b';');
    let m = put_byte(out, n, entity(&p[..k]));
    if k == p.len() {
        return m;
    }
    put_all(out, m, &p[k + 1..])
}

// Writes what stands behind the first `&` of a value, and behind each other.
fn put_parts(out: &mut [u8; ROOM], n: usize, s: &[u8]) -> usize
    ensures { Laid out.old out.new n result (parts (split ampersand s.now)) }
{
    let mut next = n;
    let mut at = 0;
    loop {
        let rest = &s[at..];
        let e = find(rest, b'&');
        next = put_part(out, next, &rest[..e]);
        if e == rest.len() {
            return next;
        }
        at = at + e + 1;
    }
}

// Writes what the value v says, its escapes undone.
fn put_words(out: &mut [u8; ROOM], n: usize, v: &[u8]) -> usize
    ensures { Laid out.old out.new n result (undo v.now) }
{
    let e = find(v, b'&');
    let m = put_all(out, n, &v[..e]);
    if e == v.len() {
        return m;
    }
    put_parts(out, m, &v[e + 1..])
}

// ---- numbers

// Writes the digits of v without a sign and leading zeros.
fn put_count(out: &mut [u8; ROOM], n: usize, v: &[u8]) -> usize
    ensures { Laid out.old out.new n result (strip (unsigned v.now)) }
{
    let a = count_start(v);
    put_all(out, n, &v[a..])
}

// Writes a number in decimal.
fn put_decimal(out: &mut [u8; ROOM], n: usize, number: u64) -> usize
    ensures { Laid out.old out.new n result (decimalOf number) }
{
    let mut digits = [0u8; DIGITS];
    let a = decimal(number, &mut digits);
    put_all(out, n, &digits[a..])
}

// Writes the number that v says in decimal.
fn put_numeral(out: &mut [u8; ROOM], n: usize, v: &[u8]) -> usize
    ensures { Laid out.old out.new n result (in_decimal (numeral v.now)) }
{
    match read_numeral(v) {
        Some(number) => put_decimal(out, n, number),
        None => n,
    }
}

// ---- by the form of the attribute

// Writes what the value v of an attribute of the form f says.
fn put_said(out: &mut [u8; ROOM], n: usize, f: u8, v: &[u8]) -> usize
    ensures { Laid out.old out.new n result (says f v.now) }
{
    match f {
        // an arm for each form: with `|` the proof of the last arm did not close
        WORDS => put_words(out, n, v),
        OPTIONAL_WORDS => put_words(out, n, v),
        HEX_NUMBER => put_numeral(out, n, v),
        NUMBER => put_count(out, n, v),
        OPTIONAL_NUMBER => put_count(out, n, v),
        _ => put_byte(out, n, digit_for(v)),
    }
}

// Writes what an attribute of the form f says where it is missing.
fn put_unsaid(out: &mut [u8; ROOM], n: usize, f: u8) -> usize
    ensures { Laid out.old out.new n result (unsaid f) }
{
    match f {
        OPTIONAL_WORDS | OPTIONAL_NUMBER => put_byte(out, n, b'-'),
        _ => put_byte(out, n, b'0'),
    }
}

// Writes what the attribute of this name and form says in the body of a tag.
fn put_told(out: &mut [u8; ROOM], n: usize, f: u8, name: &[u8], body: &[u8]) -> usize
    ensures { Laid out.old out.new n result (told f name.now (split quote body.now)) }
{
    match value_of(body, name) {
        Some(value) => put_said(out, n, f, &body[value.start..][..value.len]),
        None => put_unsaid(out, n, f),
    }
}

// Writes what the attribute of an entry says, behind a tab if it begins a field; nothing, if no line has a place for it.
fn put_attribute(out: &mut [u8; ROOM], n: usize, entry: &[u8], body: &[u8]) -> usize
    ensures { let e = entry.now in
        Laid out.old out.new n result (part (form_of e) (name_of e) (split quote body.now)) }
{
    let f = form_of(entry);
    let a = name_start(entry);
    if f < PAST_DIGITS {
        return n;
    }
    if f == FURTHER_FLAG {
        return put_told(out, n, f, &entry[a..], body);
    }
    let m = put_byte(out, n, b'\t');
    put_told(out, m, f, &entry[a..], body)
}

// Writes the fields of a line, by the row of an element and the body of its tag.
pub fn put_fields(out: &mut [u8; ROOM], n: usize, row: &[u8], body: &[u8]) -> usize
    ensures { Laid out.old out.new n result (fields_of (drop 1 (fields row.now)) (split quote body.now)) }
{
    let mut next = n;
    let mut rest = row;
    while let Some((a, len)) = next_entry(rest) {
        rest = &rest[a..];
        next = put_attribute(out, next, &rest[..len], body);
    }
    next
}
