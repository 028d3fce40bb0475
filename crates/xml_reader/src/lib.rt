// The text that a document says, written by passes over its tags: X9 and X10 of docs/RULES.md.
#![tactic(auto, using(crate::proofs::Laws::body_laws, crate::proofs::Laws::tag_laws, crate::proofs::Laws::block_laws, crate::proofs::Laws::blocking_laws, crate::proofs::Laws::line_laws, crate::proofs::Laws::owned_laws, crate::proofs::Laws::picking_laws, crate::proofs::Laws::tag_line_laws, crate::proofs::Laws::text_laws, crate::proofs::Laws::values_laws))]

ghost use Rattle.std.specs.Prelude.{◌≡◌, false, [], ◌∷◌, ◌++◌, ◌≤◌, eqb, length, drop, None};
ghost use Rattle.text.specs.Text.{split};
ghost use Rattle.xml_values.specs.Scan.{skip, after};
ghost use Rattle.xml_schema.specs.Schema.{letter_of, no_letter, entries_of, quote, before};
ghost use Rattle.xml_tags.specs.Tags.{tag_of, fields_of};
ghost use Rattle.xml_document.specs.Document.{verdict, moved, level, line_of, owns, text_of};
ghost use Rattle.xml_document.specs.Steps.{is_bad, Standing};
ghost use Rattle.xml_draft.specs.Draft.{Laid};
ghost use Rattle.xml_reader.specs.Pass.{line_bytes, picked_at, Tagged, owned_at, block_bytes, blocks_at};

use xml_document::{enter, glance, pass_over, start_of};
use xml_draft::{ROOM, put_byte, put_fields};
use xml_schema::{BEFORE, PARAM, TABLE, letter_of, row_of};
use xml_tags::{Tag, tag_end};
use xml_values::{lead, word_len};

// ---- a line

// Where the attributes of the start tag c stand.
fn body_at(c: &[u8]) -> usize
    ensures { let c = c.entry.now in (drop result c ≡ after (drop 1 (skip c))) × (result ≤ length c) }
{
    let l = lead(c);
    if l == c.len() {
        return l;
    }
    let w = word_len(&c[l + 1..]);
    l + 1 + w
}

// Writes the level of a Param that leads to the place e.
fn put_level(out: &mut [u8; ROOM], n: usize, k: usize, e: usize) -> usize
    ensures { Laid out.old out.new n result (level k e) }
{
    if k == PARAM {
        let m = put_byte(out, n, b'\t');
        return put_byte(out, m, b'0' + (e % 8) as u8);
    }
    n
}

// Writes the letter of the line of element k, and its level, if it leads to the place e.
fn put_start(out: &mut [u8; ROOM], n: usize, k: usize, e: usize) -> usize
    ensures { Laid out.old out.new n result (letter_of k ∷ level k e) }
{
    let m = put_byte(out, n, letter_of(k));
    put_level(out, m, k, e)
}

// Writes the fields of the line of element k, by the body of its tag.
fn put_values(out: &mut [u8; ROOM], n: usize, k: usize, body: &[u8]) -> usize
    ensures { Laid out.old out.new n result (fields_of (entries_of k) (split quote body.now)) }
{
    let row = row_of(k);
    let a = row.start;
    let e = a + row.len;
    put_fields(out, n, &TABLE[a..e], body)
}

// Writes the line of element k, which leads to the place e, by the body of its tag.
fn put_line(out: &mut [u8; ROOM], n: usize, k: usize, e: usize, body: &[u8]) -> usize
    ensures { Laid out.old out.new n result (line_of k e (split quote body.now) ++ (0x0a ∷ [])) }
{
    let start = put_start(out, n, k, e);
    let end = put_values(out, start, k, body);
    put_byte(out, end, b'\n')
}

// Writes the line of the start tag c of element k, which stands in d.
fn put_tag_line(out: &mut [u8; ROOM], n: usize, d: usize, k: usize, c: &[u8]) -> usize
    ensures { Laid out.old out.new n result (line_bytes d k c.now) }
{
    let b = body_at(c);
    put_line(out, n, k, enter(d, k), &c[b..])
}

// ---- what a line owns

// Does a line of this letter own what follows?
fn is_owner(w: u8) -> bool
    ensures { result ≡ owns w }
{
    matches!(w, b'F' | b'B' | b'H' | b'D')
}

// Writes the line of the tag c, if it starts an element of the letter w.
fn put_tag(out: &mut [u8; ROOM], n: usize, d: usize, c: &[u8], w: u8) -> Option<usize>
    requires { is_bad (tag_of c.now) ≡ false }
    ensures { let c = c.entry.now in Tagged out.old out.new n d c w (tag_of c) result }
{
    match glance(c) {
        Tag::Bad(_) | Tag::Shut(_) => Some(n),
        Tag::Open(k) => {
            let letter = letter_of(k);
            if is_owner(letter) {
                return None;
            }
            if letter == w {
                return Some(put_tag_line(out, n, d, k, c));
            }
            Some(n)
        }
    }
}

// Writes the lines of the letter w from `at` on, where the first tag stands in d, up to the next that owns what follows.
fn put_picked(x: &[u8], d: usize, at: usize, w: u8, out: &mut [u8; ROOM], n: usize) -> usize
    requires { Standing x.now d at × (eqb w no_letter ≡ false) }
    ensures { Laid out.old out.new n result (picked_at w x.now d at) }
{
    let mut here = d;
    let mut from = at;
    let mut next = n;
    loop {
        let rest = &x[from..];
        let e = tag_end(rest);
        if e == rest.len() {
            return next;
        }
        let Some(m) = put_tag(out, next, here, &rest[..e], w) else {
            return next;
        };
        next = m;
        here = pass_over(here, &rest[..e]);
        from = from + e + 1;
    }
}

// Writes what the line before `at` owns: its P lines, then its V lines, then its E lines.
fn put_owned(x: &[u8], d: usize, at: usize, out: &mut [u8; ROOM], n: usize) -> usize
    requires { Standing x.now d at }
    ensures { Laid out.old out.new n result (owned_at x.now d at) }
{
    let p = put_picked(x, d, at, b'P', out, n);
    let v = put_picked(x, d, at, b'V', out, p);
    put_picked(x, d, at, b'E', out, v)
}

// ---- blocks

// Writes the line of the tag c and what it owns, if it starts an element of the letter w. The next tag stands at `to`, in the place `inside`.
fn put_block(
    x: &[u8],
    d: usize,
    inside: usize,
    to: usize,
    c: &[u8],
    w: u8,
    out: &mut [u8; ROOM],
    n: usize,
) -> usize
    requires { (is_bad (tag_of c.now) ≡ false) × Standing x.now inside to × (inside ≡ moved d c.now (tag_of c.now)) }
    ensures { let c = c.entry.now in Laid out.old out.new n result (block_bytes w x.now d to c (tag_of c)) }
{
    match glance(c) {
        Tag::Bad(_) | Tag::Shut(_) => n,
        Tag::Open(k) => {
            if letter_of(k) == w {
                let m = put_tag_line(out, n, d, k, c);
                return put_owned(x, inside, to, out, m);
            }
            n
        }
    }
}

// Writes the blocks of the letter w, of a document whose first tag stands at `at`.
fn put_blocks(x: &[u8], at: usize, w: u8, out: &mut [u8; ROOM], n: usize) -> usize
    requires { Standing x.now before at × (eqb w no_letter ≡ false) }
    ensures { Laid out.old out.new n result (blocks_at w x.now before at) }
{
    let mut here = BEFORE;
    let mut from = at;
    let mut next = n;
    loop {
        let rest = &x[from..];
        let e = tag_end(rest);
        if e == rest.len() {
            return next;
        }
        let to = from + e + 1;
        let inside = pass_over(here, &rest[..e]);
        next = put_block(x, here, inside, to, &rest[..e], w, out, next);
        here = inside;
        from = to;
    }
}

// Writes the text that the document says, as far as there is room; answers its length, or some number past the room.
pub fn put_text(x: &[u8], out: &mut [u8; ROOM]) -> usize
    requires { verdict x.now ≡ None }
    ensures { Laid out.old out.new 0 result (text_of x.now) }
{
    let at = start_of(x);
    let f = put_blocks(x, at, b'F', out, 0);
    let b = put_blocks(x, at, b'B', out, f);
    let h = put_blocks(x, at, b'H', out, b);
    put_blocks(x, at, b'D', out, h)
}
