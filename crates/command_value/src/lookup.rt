// The lines that a row of a command names.
ghost use Rattle.std.specs.Prelude.{◌≡◌, true, ◌||◌, ◌<◌, eqb, length, Ok};
ghost use Rattle.text.specs.Records.{Readable};
ghost use Rattle.command_text.specs.Letters.{letter_r, letter_a};
ghost use Rattle.command_text.specs.Rules.{rules, verdict};
ghost use Rattle.command_class.specs.Definition.{under};
ghost use Rattle.command_class.specs.Find.{from, among};
ghost use Rattle.command_value.specs.Params.{is_flag};
ghost use Rattle.command_value.specs.Lookup.{Stands, Behind, ascii_here, IsShown, kept_in, ascii_by, name_by, Placed};

use command_class::{const_name, is_entry, kind_at, pass_at, read_at};
use text::Place;

// How a parameter is shown by the lines under its Q: as ascii, by the name of the K at a place, or as its bytes.
#[derive(Clone, Copy)]
pub enum Shown {
    Ascii,
    Named(Place),
    Plain,
}

// The place of the line of this number, from 1; the end of the text where there is none.
fn find_line(text: &[u8], n: u64) -> Place
    requires { verdict text.now ≡ Ok tt }
    ensures { Stands text.now n result }
{
    let mut place = Place::start();
    while place.at < text.len() {
        if place.line as u64 == n {
            return place;
        }
        place = pass_at(text, place);
    }
    place
}

// The place behind the line of this number; the end of the text where there is none.
pub fn find_items(text: &[u8], n: u64) -> Place
    requires { verdict text.now ≡ Ok tt }
    ensures { Behind text.now n result }
{
    let place = find_line(text, n);
    if place.at < text.len() {
        return pass_at(text, place);
    }
    place
}

// Is the line at a place the first of a kind under its Q, if none was seen before, and ascii?
fn is_ascii_at(text: &[u8], place: Place, letter: u8, seen: bool) -> bool
    requires { (Readable rules text.now place) × (place.at < length text.now) × (among letter_a letter_r letter_r letter ≡ true) }
    ensures { result ≡ ascii_here letter seen (from text.now place) }
{
    if seen {
        return false;
    }
    if kind_at(text, place) != letter {
        return false;
    }
    let read = read_at(text, place);
    let row = read.row;
    row.ascii
}

fn is_seen(seen: bool, kind: u8, letter: u8) -> bool
    ensures { result ≡ (seen || eqb kind letter) }
{
    seen || kind == letter
}

// With the line at a place more: the first of this number is kept.
fn keep(shown: Shown, n: u64, place: Place) -> Shown
    ensures { result ≡ kept_in shown n place }
{
    match shown {
        Shown::Ascii => Shown::Ascii,
        Shown::Named(first) => Shown::Named(first),
        Shown::Plain => {
            if place.line as u64 == n {
                return Shown::Named(place);
            }
            Shown::Plain
        }
    }
}

// How the value of the Q before the place is shown, where the K of line n names it.
pub fn shown_by(text: &[u8], start: Place, n: u64) -> Shown
    requires { Readable rules text.now start }
    ensures { IsShown text.now n (under (from text.now start)) result }
{
    let mut place = start;
    let mut array = false;
    let mut variant = false;
    let mut shown = Shown::Plain;
    while place.at < text.len() {
        let kind = kind_at(text, place);
        if is_entry(kind) {
            return shown;
        }
        if is_ascii_at(text, place, b'A', array) {
            return Shown::Ascii;
        }
        if is_ascii_at(text, place, b'R', variant) {
            return Shown::Ascii;
        }
        array = is_seen(array, kind, b'A');
        variant = is_seen(variant, kind, b'R');
        shown = keep(shown, n, place);
        place = pass_at(text, place);
    }
    shown
}

pub fn is_ascii(shown: Shown) -> bool
    ensures { result ≡ ascii_by shown }
{
    matches!(shown, Shown::Ascii)
}

// The name that a value is shown by; nothing where it has none.
pub fn name_by(text: &[u8], shown: Shown) -> &[u8]
    requires { Placed text.now shown }
    ensures { result.now ≡ name_by text.now shown }
{
    match shown {
        Shown::Ascii => &text[..0],
        Shown::Named(place) => const_name(text, place),
        Shown::Plain => &text[..0],
    }
}

// Is the line of this number a T?
pub fn is_flag(text: &[u8], n: u64) -> bool
    requires { verdict text.now ≡ Ok tt }
    ensures { result ≡ is_flag text.now n }
{
    let place = find_line(text, n);
    if place.at < text.len() {
        return kind_at(text, place) == b'T';
    }
    false
}
