// The symbol that a row of a header names.
ghost use Rattle.std.specs.Prelude.{◌≡◌, ◌≤◌, Ok};
ghost use Rattle.text.specs.Records.{Readable};
ghost use Rattle.text.specs.Place.{part_of};
ghost use Rattle.frame_text.specs.Rules.{rules, verdict};
ghost use Rattle.frame_definition.specs.Definition.{below, entries};
ghost use Rattle.frame_definition.specs.Find.{from, heard};
ghost use Rattle.header_value.specs.Fields.{entry_text, symbol_text};

use frame_definition::{find_set, is_owner};
use header_paths::part_of;
use text::{Part, Place};

// The text of the E of number n, from 1, under the D that owns what follows the place; of no bytes where there is none.
fn entry_text(text: &[u8], start: Place, n: u64) -> Part
    requires { (Readable rules text.now start) × (1 ≤ n) }
    ensures { part_of text.now result ≡ entry_text n (entries (below (from text.now start))) }
{
    let mut place = start;
    let mut left = n;
    while place.at < text.len() {
        let at = place.at;
        let kind = text[at];
        if is_owner(kind) {
            return Part { start: 0, len: 0 };
        }
        if kind != b'E' {
            place = place.pass(text);
            continue;
        }
        if left == 1 {
            let line = place.step(text);
            return line.part(text, 2);
        }
        left -= 1;
        place = place.pass(text);
    }
    Part { start: 0, len: 0 }
}

// The text of the E of number n, from 1, in the define set whose name stands in a part of the text; nothing for 0 or a part of no bytes.
pub fn symbol_text(text: &[u8], set: Part, n: u64) -> &[u8]
    requires { verdict text.now ≡ Ok tt }
    ensures { result.now ≡ symbol_text text.now (heard (λ l. l) text.now set) n }
{
    if n == 0 {
        return &text[..0];
    }
    if set.len == 0 {
        return &text[..0];
    }
    let name = part_of(text, set.start as u64, set.len as u64);
    let Some(place) = find_set(text, name) else {
        return &text[..0];
    };
    let part = entry_text(text, place, n);
    part_of(text, part.start as u64, part.len as u64)
}
