// Where an XML is refused by 14, as people find the place, and what may be wrong with what stands there.
use output::prose::{say, say_number, show};
use std::num::wrapping_add_u64;
use text::find;
use xml_tags::{Tag, read_tag, tag_end};

// A place as people find it: its line and its column, in bytes, both from 1. Neither number wraps, as no file has 2^64 bytes.
#[derive(Clone, Copy)]
struct Spot {
    line: u64,
    column: u64,
}

// The place behind a byte.
fn behind(spot: Spot, byte: u8) -> Spot {
    if byte == b'\n' {
        return Spot {
            line: wrapping_add_u64(spot.line, 1),
            column: 1,
        };
    }
    Spot {
        line: spot.line,
        column: wrapping_add_u64(spot.column, 1),
    }
}

// The place behind all these bytes.
fn end_of(x: &[u8]) -> Spot {
    let mut spot = Spot { line: 1, column: 1 };
    for &byte in x {
        spot = behind(spot, byte);
    }
    spot
}

// Where in an XML one is: between tags, in a tag, or in a value of its.
#[derive(Clone, Copy)]
enum Within {
    Between,
    Tag,
    Value,
}

fn between_then(byte: u8) -> Within {
    if byte == b'<' {
        Within::Tag
    } else {
        Within::Between
    }
}

fn tag_then(byte: u8) -> Within {
    match byte {
        b'>' => Within::Between,
        b'"' => Within::Value,
        _ => Within::Tag,
    }
}

fn value_then(byte: u8) -> Within {
    if byte == b'"' {
        Within::Tag
    } else {
        Within::Value
    }
}

// Where one is behind a byte.
fn then(within: Within, byte: u8) -> Within {
    match within {
        Within::Between => between_then(byte),
        Within::Tag => tag_then(byte),
        Within::Value => value_then(byte),
    }
}

// Where one is behind all these bytes.
fn where_behind(x: &[u8]) -> Within {
    let mut within = Within::Between;
    for &byte in x {
        within = then(within, byte);
    }
    within
}

// ---- what stands there

// What may be wrong with a tag that begins where the fault is.
fn say_tag(s: &[u8]) {
    let e = tag_end(s);
    if e == s.len() {
        say(b"this tag has no end: no > outside double quotes comes behind it");
        return;
    }
    match read_tag(&s[..e]) {
        Tag::Bad(_) => {
            say(b"no element has this name, or an attribute that it must have is missing")
        }
        Tag::Shut(_) => say(b"this closes an element that is not the one that is open here"),
        Tag::Open(_) => say(b"this element may not stand here, or lies more than 8 Params deep"),
    }
}

// What may be wrong with markup.
fn say_markup(s: &[u8]) {
    if s.starts_with(b"<!--") {
        say(b"a comment: none is read, take it out");
        return;
    }
    if s.starts_with(b"<!") {
        say(b"CDATA or a document type: neither is read, take it out");
        return;
    }
    if s.starts_with(b"<?") {
        say(b"an instruction: only the XML declaration is read, as the first bytes of the file");
        return;
    }
    say_tag(s);
}

fn say_value() {
    say(
        b"this value is not what its attribute takes: numbers are decimal digits, ParamHexValue and a
  Define's Key also 0x and hex digits, flags true or false; & begins one of &amp; &lt; &gt; &quot;
  &apos; only; < and bytes below 20 stand in none, and an attribute may be left out but not say -",
    );
}

fn say_attribute() {
    say(
        b"this attribute is not one of its element's, comes again in the tag, or is not of the form
  Name=\"value\", in double quotes",
    );
}

// What may be wrong with the bytes s between tags.
fn say_between(s: &[u8]) {
    if s.is_empty() {
        say(b"the file ends here, and its root element FrameDefinition is missing or not closed");
        return;
    }
    if s[0] == b'<' {
        say_markup(s);
        return;
    }
    say(b"only tags and white space may stand here");
}

// What may be wrong with the bytes s, where they stand.
fn say_reason(within: Within, s: &[u8]) {
    match within {
        Within::Between => say_between(s),
        Within::Tag => say_attribute(),
        Within::Value => say_value(),
    }
}

// The line that follows, if anything does.
fn show_line(s: &[u8]) {
    let e = find(s, 10);
    if e != 0 {
        say(b"  ");
        show(&s[..e]);
        say(b"\n");
    }
}

// Where the bytes x are refused, when s are those behind the place.
fn say_place(name: &[u8], x: &[u8], s: &[u8]) {
    let spot = end_of(x);
    show(name);
    say(b" is refused by 14 at line ");
    say_number(spot.line as usize);
    say(b", column ");
    say_number(spot.column as usize);
    say(b":\n");
    show_line(s);
    say(b"  ");
    say_reason(where_behind(x), s);
    say(b"\n");
}

// Why the XML x is refused at a place.
pub fn say_fault(name: &[u8], x: &[u8], place: usize) {
    if place < x.len() {
        say_place(name, &x[..place], &x[place..]);
        return;
    }
    say_place(name, x, b"");
}
