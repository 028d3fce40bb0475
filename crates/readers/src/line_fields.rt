// The lines of a definition text and the fields of a line, one at a time, whatever stands in them.
#![tactic(auto, using(crate::proofs::line_fields::Laws::step_laws, crate::proofs::line_fields::Laws::count_laws, crate::proofs::line_fields::Laws::field_laws, crate::proofs::line_fields::Laws::left_laws, crate::proofs::line_fields::Laws::letter_laws))]

ghost use Rattle.std.specs.Prelude.{◌≡◌, length};
ghost use Rattle.text.specs.Text.{split, field, fields};
ghost use Rattle.text.specs.Place.{kind_of};
ghost use Rattle.readers.specs.Fields.{IsField};

use text::{Part, find, is_same};

// Where piece k of s stands, from 0, where b parts the pieces. One that there isn't is no bytes at the end of s.
pub fn find_piece(s: &[u8], b: u8, k: usize) -> Part
    ensures { IsField b k s.now result }
{
    let mut at = 0;
    for _ in 0..k {
        let rest = &s[at..];
        let e = find(rest, b);
        if e == rest.len() {
            return Part {
                start: s.len(),
                len: 0,
            };
        }
        at = at + e + 1;
    }
    let len = find(&s[at..], b);
    Part { start: at, len }
}

// How many pieces s has.
pub fn count_pieces(s: &[u8], b: u8) -> usize
    ensures { result ≡ length (split b s.now) }
{
    let mut at = 0;
    let mut n = 1;
    loop {
        let rest = &s[at..];
        let e = find(rest, b);
        if e == rest.len() {
            return n;
        }
        at = at + e + 1;
        n += 1;
    }
}

// Field k of a line, from 0, or no bytes where there is none.
pub fn field_of(line: &[u8], k: usize) -> &[u8]
    ensures { result.now ≡ field k (fields line.now) }
{
    let part = find_piece(line, 9, k);
    let a = part.start;
    let e = a + part.len;
    &line[a..e]
}

// The letter of a line: its first field, if that is one byte; else 0.
pub fn letter_of(line: &[u8]) -> u8
    ensures { result ≡ kind_of (fields line.now) }
{
    if find(line, 9) == 1 { line[0] } else { 0 }
}

// Which field of a line s is, from 0; the number of fields where it is none of them.
pub fn find_field(line: &[u8], s: &[u8]) -> usize {
    let n = count_pieces(line, 9);
    (0..n).find(|k| is_same(field_of(line, *k), s)).unwrap_or(n)
}
