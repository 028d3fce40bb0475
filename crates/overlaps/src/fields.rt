// Does a path find the same field by two headers?
ghost use Rattle.std.specs.Prelude.{◌&&◌, ◌≡◌, eqb};
ghost use Rattle.text.specs.Text.{same};
ghost use Rattle.text.specs.Records.{Readable};
ghost use Rattle.frame_text.specs.Form.{names};
ghost use Rattle.frame_text.specs.Rules.{rules};
ghost use Rattle.frame_definition.specs.Find.{meant};
ghost use Rattle.overlaps.specs.Overlaps.{leads, decides};
ghost use Rattle.overlaps.specs.Read.{said_at, Meets};

use crate::lines::{has_outer, is_alike, is_straight};
use frame_definition::{Field, next_param};
use header_paths::part_of;
use text::{Place, find, is_same};

// Has a P line this level and name?
fn is_named(text: &[u8], field: Field, level: usize, name: &[u8]) -> bool
    ensures { result ≡ (eqb field.level level && same (meant text.now field).name name.now) }
{
    if field.level as usize != level {
        return false;
    }
    let found = field.name;
    is_same(part_of(text, found.start as u64, found.len as u64), name)
}

// Goes on by P lines that say the same in both headers, up to the first of this level and name.
fn meet(text: &[u8], one: Place, other: Place, level: usize, name: &[u8]) -> Option<(Place, Place)>
    requires { (Readable rules text.now one) × (Readable rules text.now other) }
    ensures { Meets text.now one other level name.now result }
{
    let mut a = one;
    let mut b = other;
    loop {
        // Not by `?`: what it hands on is no answer of this function's own, and the proof did not close.
        let Some((field, place)) = next_param(text, a, 0) else {
            return None;
        };
        let Some((beside, beyond)) = next_param(text, b, 0) else {
            return None;
        };
        if !is_alike(text, field, beside) {
            return None;
        }
        if (field.level as usize) < level {
            return None;
        }
        if is_named(text, field, level, name) {
            return Some((place, beyond));
        }
        a = place;
        b = beyond;
    }
}

// Do the P lines of two headers say the same up to the one to which the path leads?
fn is_led(text: &[u8], one: Place, other: Place, path: &[u8]) -> bool
    requires { (Readable rules text.now one) × (Readable rules text.now other) }
    ensures { result ≡ leads 0 (names path.now) (said_at text.now one) (said_at text.now other) }
{
    let mut a = one;
    let mut b = other;
    let mut level: usize = 0;
    let mut at: usize = 0;
    loop {
        let rest = &path[at..];
        let e = find(rest, b'.');
        let Some((next, beyond)) = meet(text, a, b, level, &rest[..e]) else {
            return false;
        };
        if e == rest.len() {
            return true;
        }
        a = next;
        b = beyond;
        level += 1;
        at = at + e + 1;
    }
}

// Where both headers hold, does the path find the same value by both?
pub fn is_decided(text: &[u8], one: Place, other: Place, path: &[u8]) -> bool
    requires { (Readable rules text.now one) × (Readable rules text.now other) }
    ensures { result ≡ decides (said_at text.now one) (said_at text.now other) (names path.now) }
{
    let e = find(path, b'.');
    if !has_outer(text, one, &path[..e]) {
        return true;
    }
    if !has_outer(text, other, &path[..e]) {
        return true;
    }
    if !is_led(text, one, other, path) {
        return false;
    }
    if !is_straight(text, one) {
        return false;
    }
    is_straight(text, other)
}
