// P lines compared, and looked through by level and name.
ghost use Rattle.std.specs.Prelude.{◌≡◌};
ghost use Rattle.text.specs.Text.{same};
ghost use Rattle.text.specs.Place.{part_of};
ghost use Rattle.text.specs.Records.{Readable};
ghost use Rattle.frame_text.specs.Rules.{rules};
ghost use Rattle.frame_definition.specs.Find.{heard, meant};
ghost use Rattle.overlaps.specs.Overlaps.{same_option, same_numbers, same_names, same_paths, alike, has_outer, clear_of, straight};
ghost use Rattle.overlaps.specs.Read.{said_at};

use frame_definition::{Field, next_param};
use header_fields::type_number;
use header_paths::part_of;
use text::{Part, Place, is_same};

// Do two parts of the text say the same?
pub fn same_part(text: &[u8], a: Part, b: Part) -> bool
    ensures { result ≡ same (part_of text.now a) (part_of text.now b) }
{
    let one = part_of(text, a.start as u64, a.len as u64);
    let other = part_of(text, b.start as u64, b.len as u64);
    is_same(one, other)
}

// Do two parts that may be missing say the same?
fn same_given(text: &[u8], a: Part, b: Part) -> bool
    ensures { result ≡ same_option same (heard (λ l. l) text.now a) (heard (λ l. l) text.now b) }
{
    if a.len == 0 {
        return b.len == 0;
    }
    if b.len == 0 {
        return false;
    }
    same_part(text, a, b)
}

// Have two P lines the same numbers and type?
fn same_numbers(text: &[u8], f: Field, g: Field) -> bool
    ensures { result ≡ same_numbers (meant text.now f) (meant text.now g) }
{
    if f.level != g.level {
        return false;
    }
    if f.order != g.order {
        return false;
    }
    if f.bits != g.bits {
        return false;
    }
    let one = f.kind;
    let other = g.kind;
    type_number(one) == type_number(other)
}

// Have they the same name and define set?
fn same_names(text: &[u8], f: Field, g: Field) -> bool
    ensures { result ≡ same_names (meant text.now f) (meant text.now g) }
{
    if !same_part(text, f.name, g.name) {
        return false;
    }
    same_given(text, f.set, g.set)
}

// Have they the same optional path and size path?
fn same_paths(text: &[u8], f: Field, g: Field) -> bool
    ensures { result ≡ same_paths (meant text.now f) (meant text.now g) }
{
    if !same_given(text, f.optional, g.optional) {
        return false;
    }
    same_given(text, f.size, g.size)
}

// Do two P lines say the same?
pub fn is_alike(text: &[u8], f: Field, g: Field) -> bool
    ensures { result ≡ alike (meant text.now f) (meant text.now g) }
{
    if !same_numbers(text, f, g) {
        return false;
    }
    if !same_names(text, f, g) {
        return false;
    }
    same_paths(text, f, g)
}

// Has an outer P of the header at a place this name?
pub fn has_outer(text: &[u8], start: Place, name: &[u8]) -> bool
    requires { Readable rules text.now start }
    ensures { result ≡ has_outer name.now (said_at text.now start) }
{
    let mut place = start;
    while let Some((field, after)) = next_param(text, place, 0) {
        place = after;
        if field.level != 0 {
            continue;
        }
        let found = field.name;
        if is_same(part_of(text, found.start as u64, found.len as u64), name) {
            return true;
        }
    }
    false
}

// Behind a P of this level, order and name, up to the next of a lower level: has none of its level a lower order or its name?
fn is_clear(text: &[u8], start: Place, level: u16, order: u16, name: Part) -> bool
    requires { Readable rules text.now start }
    ensures { result ≡ clear_of level order (part_of text.now name) (said_at text.now start) }
{
    let mut place = start;
    while let Some((field, after)) = next_param(text, place, 0) {
        place = after;
        if field.level < level {
            return true;
        }
        if level < field.level {
            continue;
        }
        if field.order < order {
            return false;
        }
        if same_part(text, field.name, name) {
            return false;
        }
    }
    true
}

// Do the P lines of the header at a place stand as they are read, and have no two of one list the same name?
pub fn is_straight(text: &[u8], start: Place) -> bool
    requires { Readable rules text.now start }
    ensures { result ≡ straight (said_at text.now start) }
{
    let mut place = start;
    while let Some((field, after)) = next_param(text, place, 0) {
        place = after;
        if !is_clear(text, after, field.level, field.order, field.name) {
            return false;
        }
    }
    true
}
