// The tags of a document: X4 and X8 of docs/RULES.md.
#![tactic(auto, using(crate::proofs::Laws::laws))]

ghost use Rattle.std.specs.Prelude.{◌≡◌, true, false, not, ◌&&◌, ◌||◌, ◌+◌, ◌^◌, ◌≤◌, ◌<◌, eqb, length, take, drop, MatchOption};
ghost use Rattle.text.specs.Text.{split, fields, same};
ghost use Rattle.xml_schema.specs.Schema.{entries_of, form_of, name_of, form_in, is_optional, quote};
ghost use Rattle.xml_tags.specs.Tags.{tag_end, name_in, is_equals, is_name, is_end, has as hasIn, fault, whole, judged, opened, shutting, tag_of, closed};
ghost use Rattle.xml_tags.specs.Steps.{Halved, Spans, grade, UpTo, Inside};

use text::{Part, find, is_same};
use xml_schema::{
    COUNT, FLAG, FURTHER_FLAG, OPTIONAL_NUMBER, OPTIONAL_WORDS, TABLE, element_of, form_in,
    form_of, name_start, next_entry, row_of,
};
use xml_values::{is_blank, is_valid, lead, word_len};

// What a tag is: outside of what is read, at a place counted in the tag; the end of an element; the start of one.
#[derive(Clone, Copy)]
pub enum Tag {
    Bad(usize),
    Shut(usize),
    Open(usize),
}

// What stands at the front of the attributes of a tag: the end of the tag; a name with no value that ends; a name of so many bytes and a value of so many.
#[derive(Clone, Copy)]
pub enum Pair {
    Last,
    Odd,
    Two(usize, usize),
}

// What is wrong with an attribute, if anything: its name or its value.
#[derive(Clone, Copy)]
pub enum Grade {
    Right,
    WrongName,
    WrongValue,
}

// Where the first tag of s ends, or s's length where none does.
pub fn tag_end(s: &[u8]) -> usize
    ensures { (result ≡ tag_end false s.now) × (result ≤ length s.now) }
{
    let mut quoted = false;
    for (i, b) in s.iter().enumerate() {
        if *b == b'"' {
            quoted = !quoted;
        } else if !quoted && *b == b'>' {
            return i;
        }
    }
    s.len()
}

// ---- attributes

// What stands at the front of r?
fn front(r: &[u8]) -> Pair
    ensures { Halved r.now result }
{
    let e = find(r, b'"');
    if e == r.len() {
        return Pair::Last;
    }
    let rest = &r[e + 1..];
    let f = find(rest, b'"');
    if f == rest.len() {
        return Pair::Odd;
    }
    Pair::Two(e, f)
}

// Is s `=` and white space?
fn is_equals(s: &[u8]) -> bool
    ensures { result ≡ is_equals s.now }
{
    s.len() > 0 && s[0] == b'=' && is_blank(&s[1..])
}

// Is p white space, a word, and `=` with white space around it?
fn is_name(p: &[u8]) -> bool
    ensures { result ≡ is_name p.now }
{
    let l = lead(p);
    if l < 1 {
        return false;
    }
    let s = &p[l..];
    let k = word_len(s);
    let t = &s[k..];
    let m = lead(t);
    is_equals(&t[m..])
}

// The name in p.
fn name_in(p: &[u8]) -> &[u8]
    ensures { result.now ≡ name_in p.now }
{
    let l = lead(p);
    let s = &p[l..];
    let k = word_len(s);
    &s[..k]
}

// Is the name in p n?
fn is_named(p: &[u8], n: &[u8]) -> bool
    ensures { result ≡ same (name_in p.now) n.now }
{
    is_same(name_in(p), n)
}

// Where the value of the attribute n stands in the body of a tag, if there is one.
pub fn value_of(body: &[u8], n: &[u8]) -> Option<Part>
    ensures { let there = hasIn n.now (split quote body.now) in
        MatchOption result (there ≡ false) (λ r. (there ≡ true) × Spans body.now n.now r) }
{
    let mut at = 0;
    while let Pair::Two(e, f) = front(&body[at..]) {
        if is_named(&body[at..][..e], n) {
            return Some(Part {
                start: at + e + 1,
                len: f,
            });
        }
        at = at + e + f + 2;
    }
    None
}

// Is there an attribute n in the body of a tag?
pub fn has(body: &[u8], n: &[u8]) -> bool
    ensures { result ≡ hasIn n.now (split quote body.now) }
{
    value_of(body, n).is_some()
}

// The form of the value of the attribute that p names, by a row.
fn form_at(row: &[u8], p: &[u8]) -> u8
    ensures { result ≡ form_in (drop 1 (fields row.now)) (name_in p.now) }
{
    form_in(row, name_in(p))
}

// Does the name in p come again?
fn is_again(p: &[u8], later: &[u8]) -> bool
    ensures { result ≡ hasIn (name_in p.now) (split quote later.now) }
{
    has(later, name_in(p))
}

// Is p the name of an attribute of this form, if there is one, that does not come again?
fn is_new(form: u8, p: &[u8], later: &[u8]) -> bool
    ensures { let p = p.entry.now in result ≡ is_name p && (not (eqb form 0) && not (hasIn (name_in p) (split quote later.now))) }
{
    is_name(p) && form != 0 && !is_again(p, later)
}

// What is wrong with the attribute at the front of r, whose name has e bytes and whose value has f?
fn grade_of(row: &[u8], r: &[u8], e: usize, f: usize) -> Grade
    requires { e + f + 2 ≤ length r.now }
    ensures { let r = r.entry.now in
        result ≡ grade (drop 1 (fields row.now)) (take e r) (take f (drop (e + 1) r)) (split quote (drop (e + f + 2) r)) }
{
    let from = e + 1;
    let to = from + f;
    let rest = to + 1;
    let form = form_at(row, &r[..e]);
    if !is_new(form, &r[..e], &r[rest..]) {
        return Grade::WrongName;
    }
    if is_valid(form, &r[from..to]) {
        Grade::Right
    } else {
        Grade::WrongValue
    }
}

// Does r end a tag?
fn is_end(r: &[u8]) -> bool
    ensures { result ≡ is_end r.now }
{
    let l = lead(r);
    let s = &r[l..];
    is_same(s, b"") || is_same(s, b"/")
}

// The first fault in the body of a tag, by the row of its element, where the body stands from inside on.
fn fault_of(row: &[u8], body: &[u8], inside: usize) -> Option<usize>
    requires { inside + length body.now < 2 ^ 64 }
    ensures { let body = body.entry.now in
        (result ≡ fault (drop 1 (fields row.now)) inside (split quote body)) × UpTo (inside + length body) result }
{
    let mut at = 0;
    loop {
        let r = &body[at..];
        match front(r) {
            Pair::Last => {
                if is_end(r) {
                    return None;
                }
                return Some(inside + at);
            }
            Pair::Odd => {
                return Some(inside + at);
            }
            Pair::Two(e, f) => match grade_of(row, r, e, f) {
                Grade::Right => {
                    at = at + e + f + 2;
                }
                Grade::WrongName => {
                    return Some(inside + at);
                }
                Grade::WrongValue => {
                    return Some(inside + at + e + 1);
                }
            },
        }
    }
}

// May an attribute of this form be missing?
fn is_optional(form: u8) -> bool
    ensures { result ≡ is_optional form }
{
    matches!(form, OPTIONAL_WORDS | OPTIONAL_NUMBER | FLAG | FURTHER_FLAG)
}

// Is the attribute of an entry there, or may it be missing?
fn is_held(entry: &[u8], body: &[u8]) -> bool
    ensures { let e = entry.now in result ≡ is_optional (form_of e) || hasIn (name_of e) (split quote body.now) }
{
    let a = name_start(entry);
    is_optional(form_of(entry)) || has(body, &entry[a..])
}

// Is each attribute of the row there that may not be missing?
fn is_whole(row: &[u8], body: &[u8]) -> bool
    ensures { result ≡ whole (drop 1 (fields row.now)) (split quote body.now) }
{
    let mut rest = row;
    while let Some((a, len)) = next_entry(rest) {
        rest = &rest[a..];
        if !is_held(&rest[..len], body) {
            return false;
        }
    }
    true
}

// ---- a tag

// The start of element k at a place, by its row, whose attributes stand from inside on.
fn judge_tag(k: usize, row: &[u8], body: &[u8], place: usize, inside: usize) -> Tag
    requires { (inside + length body.now < 2 ^ 64) × (place ≤ inside) }
    ensures { let body = body.entry.now in
        (result ≡ judged k (drop 1 (fields row.now)) place inside (split quote body)) × Inside (inside + length body) result }
{
    match fault_of(row, body, inside) {
        Some(n) => Tag::Bad(n),
        None => {
            if is_whole(row, body) {
                Tag::Open(k)
            } else {
                Tag::Bad(place)
            }
        }
    }
}

// The same, by its number.
fn judge_start(k: usize, body: &[u8], place: usize, inside: usize) -> Tag
    requires { (inside + length body.now < 2 ^ 64) × (place ≤ inside) }
    ensures { let body = body.entry.now in (result ≡ judged k (entries_of k) place inside (split quote body)) × Inside (inside + length body) result }
{
    let row = row_of(k);
    let a = row.start;
    let e = a + row.len;
    judge_tag(k, &TABLE[a..e], body, place, inside)
}

// The start of an element whose name begins l, and whose `<` stands at a place.
fn open_tag(l: &[u8], place: usize) -> Tag
    requires { place + 1 + length l.now < 2 ^ 64 }
    ensures { let l = l.entry.now in (result ≡ opened place l) × Inside (place + 1 + length l) result }
{
    let w = word_len(l);
    let k = element_of(&l[..w]);
    if k < COUNT {
        return judge_start(k, &l[w..], place, place + 1 + w);
    }
    Tag::Bad(place)
}

// The end of an element whose name begins l.
fn shut_tag(l: &[u8], place: usize) -> Tag
    ensures { let l = l.entry.now in (result ≡ shutting place l) × Inside place result }
{
    let w = word_len(l);
    let k = element_of(&l[..w]);
    if k < COUNT && is_blank(&l[w..]) {
        Tag::Shut(k)
    } else {
        Tag::Bad(place)
    }
}

// What the tag c is.
pub fn read_tag(c: &[u8]) -> Tag
    ensures { let c = c.entry.now in (result ≡ tag_of c) × Inside (length c) result }
{
    let l = lead(c);
    let s = &c[l..];
    if s.len() < 2 || s[0] != b'<' {
        return Tag::Bad(l);
    }
    if s[1] == b'/' {
        shut_tag(&s[2..], l)
    } else {
        open_tag(&s[1..], l)
    }
}

// Is the start tag c the end too?
pub fn is_closed(c: &[u8]) -> bool
    ensures { result ≡ closed c.now }
{
    matches!(c, [.., b'/'])
}
