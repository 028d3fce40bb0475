// A document: where we are in it, and where its first fault is. X4, X7 and X8 of docs/RULES.md.
#![tactic(auto, using(crate::proofs::Laws::check_laws, crate::proofs::Laws::deeper_laws, crate::proofs::Laws::moved_laws, crate::proofs::Laws::place_laws, crate::proofs::Laws::glance_laws, crate::proofs::Laws::start_laws))]

ghost use Rattle.std.specs.Prelude.{◌≡◌, cond, ◌+◌, ◌^◌, ◌≤◌, ◌<◌, length};
ghost use Rattle.xml_tags.specs.Tags.{tag_of, closed};
ghost use Rattle.xml_document.specs.Document.{deeper as deeperOf, shallower as shallowerOf, enter as enterOf, leave as leaveOf, moved as movedOf};
ghost use Rattle.xml_document.specs.Document.{fault_at, last_fault, is_declaration, start, verdict};
ghost use Rattle.xml_document.specs.Steps.{Glimpsed, Goes};

use text::is_same;
use xml_schema::{BEFORE, BEHIND, NOWHERE, PARAM, ROOT, element_of, parent_of};
use xml_tags::{Tag, is_closed, read_tag, tag_end};
use xml_values::{is_white, lead, word_len};

// ---- where we are

// Where a Param that starts leads.
fn deeper(d: usize) -> usize
    ensures { result ≡ deeperOf d }
{
    match d {
        2 => 16,
        3 => 24,
        16..=22 | 24..=30 => d + 1,
        _ => NOWHERE,
    }
}

// Where a Param that ends leads.
fn shallower(d: usize) -> usize
    ensures { result ≡ shallowerOf d }
{
    match d {
        16 => 2,
        24 => 3,
        17..=31 => d - 1,
        _ => NOWHERE,
    }
}

// Where the start of element k leads from d.
pub fn enter(d: usize, k: usize) -> usize
    ensures { result ≡ enterOf d k }
{
    if k == PARAM {
        return deeper(d);
    }
    let p = parent_of(k);
    if d == p {
        return k;
    }
    NOWHERE
}

// Where the end of element k leads from d.
fn leave(d: usize, k: usize) -> usize
    ensures { result ≡ leaveOf d k }
{
    if k == PARAM {
        return shallower(d);
    }
    if d == k {
        if k == ROOT {
            return BEHIND;
        }
        return parent_of(k);
    }
    NOWHERE
}

// Where the start tag c of element k leads from d.
fn opened(d: usize, c: &[u8], k: usize) -> usize
    ensures { let c = c.entry.now in result ≡ cond (closed c) (leaveOf (enterOf d k) k) (enterOf d k) }
{
    let e = enter(d, k);
    if is_closed(c) {
        return leave(e, k);
    }
    e
}

// Where the tag c leads from d, by what it is.
fn follow(d: usize, c: &[u8], tag: Tag) -> usize
    ensures { result ≡ movedOf d c.entry.now tag }
{
    match tag {
        Tag::Bad(_) => NOWHERE,
        Tag::Shut(k) => leave(d, k),
        Tag::Open(k) => opened(d, c, k),
    }
}

// Where the tag c leads from d.
fn moved(d: usize, c: &[u8]) -> usize
    ensures { let c = c.entry.now in result ≡ movedOf d c (tag_of c) }
{
    follow(d, c, read_tag(c))
}

// ---- the first fault

// The place of the fault in the tag c, which stands at a place and leads nowhere.
fn fault_at(place: usize, c: &[u8]) -> usize
    requires { place + length c.now < 2 ^ 64 }
    ensures { let c = c.entry.now in result ≡ fault_at place c (tag_of c) }
{
    match read_tag(c) {
        Tag::Bad(n) => place + n,
        Tag::Shut(_) | Tag::Open(_) => place + lead(c),
    }
}

// What stands behind the last tag, at a place: white space, if the root has ended.
fn last_fault(d: usize, c: &[u8], place: usize) -> Option<usize>
    requires { place + length c.now < 2 ^ 64 }
    ensures { result ≡ last_fault d place c.now }
{
    let l = lead(c);
    if d == BEHIND && l == c.len() {
        return None;
    }
    Some(place + l)
}

// Is the tag c a declaration?
fn is_declaration(c: &[u8]) -> bool
    ensures { result ≡ is_declaration c.now }
{
    c.len() >= 6 && is_same(&c[..5], b"<?xml") && is_white(c[5]) && c[c.len() - 1] == b'?'
}

// How many bytes a declaration takes at the front of x.
pub fn start_of(x: &[u8]) -> usize
    ensures { (result ≡ start x.now) × (result ≤ length x.now) }
{
    let e = tag_end(x);
    if e != x.len() && is_declaration(&x[..e]) {
        return e + 1;
    }
    0
}

// Is the document within what is read? If not, where is its first fault?
pub fn check(x: &[u8]) -> Option<usize>
    ensures { result ≡ verdict x.now }
{
    let mut d = BEFORE;
    let mut at = start_of(x);
    loop {
        let rest = &x[at..];
        let e = tag_end(rest);
        if e == rest.len() {
            return last_fault(d, rest, at);
        }
        let n = moved(d, &rest[..e]);
        if n == NOWHERE {
            return Some(fault_at(at, &rest[..e]));
        }
        d = n;
        at = at + e + 1;
    }
}

// ---- a tag with which nothing is wrong

// What the tag c is, if nothing is wrong with it: its attributes are passed over.
pub fn glance(c: &[u8]) -> Tag
    ensures { Glimpsed c.now result }
{
    let l = lead(c);
    let s = &c[l..];
    if s.len() < 2 {
        return Tag::Bad(l);
    }
    if s[1] == b'/' {
        let name = &s[2..];
        let w = word_len(name);
        return Tag::Shut(element_of(&name[..w]));
    }
    let name = &s[1..];
    let w = word_len(name);
    Tag::Open(element_of(&name[..w]))
}

// Where the tag c leads from d, if nothing is wrong with it.
pub fn pass_over(d: usize, c: &[u8]) -> usize
    ensures { Goes d c.now result }
{
    follow(d, c, glance(c))
}
