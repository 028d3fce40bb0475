// The XML that is written for the lines of a text: X13 of docs/RULES.md.
#![tactic(auto, using(crate::proofs::Laws::laws, crate::proofs::Laws::element_laws, crate::proofs::Laws::line_laws, crate::proofs::Laws::rest_laws, crate::proofs::Laws::tag_laws, crate::proofs::Laws::xml_laws))]

ghost use Rattle.std.specs.Prelude.{◌≡◌, ◌≤◌};
ghost use Rattle.text.specs.Text.{lines, fields};
ghost use Rattle.append.specs.Append.{Room, Laid};
ghost use Rattle.xml_schema.specs.Schema.{entries_of};
ghost use Rattle.xml_attributes.specs.Attributes.{attributes};
ghost use Rattle.xml_elements.specs.Elements.{name_for, blanks, head, depth, innermost, up, shut, closings, element_for, level_in, stands_in};
ghost use Rattle.xml_elements.specs.Elements.{is_alone, ending, first_field, rest_for, tag_for, leads_to, element, kind_for, body, xml_of};

use append::append;
use numerals::less;
use readers::line_fields::{field_of, letter_of};
use text::{find, read_value};
use xml_attributes::append_attributes;
use xml_schema::{ELEMENTS, PARAM, TABLE, name_of, parent_of, row_of};

// Two spaces for each of so many elements.
fn append_blanks(buffer: &mut [u8], at: usize, n: usize) -> usize
    requires { Room at (blanks n) }
    ensures { Laid (blanks n) buffer.old at result buffer.new }
{
    let mut next = at;
    for _ in 0..n {
        next = append(buffer, next, b"  ");
    }
    next
}

// The name of element k.
fn append_name(buffer: &mut [u8], at: usize, k: usize) -> usize
    requires { Room at (name_for k) }
    ensures { Laid (name_for k) buffer.old at result buffer.new }
{
    let part = name_of(k);
    let a = part.start;
    let e = a + part.len;
    append(buffer, at, &ELEMENTS[a..e])
}

// What a tag begins with: its spaces, a mark, the name of element k.
fn append_head(buffer: &mut [u8], at: usize, n: usize, mark: &[u8], k: usize) -> usize
    requires { Room at (head n mark.now k) }
    ensures { Laid (head n mark.now k) buffer.old at result buffer.new }
{
    let start = append_blanks(buffer, at, n);
    let name = append(buffer, start, mark);
    append_name(buffer, name, k)
}

// How many elements are around what stands at a place.
fn depth_of(d: usize) -> usize
    ensures { result ≡ depth d }
{
    if 16 <= d {
        return 2 + d % 8;
    }
    if d == 0 { 0 } else { 1 }
}

// The element that we are in.
fn innermost_of(d: usize) -> usize
    ensures { result ≡ innermost d }
{
    if 16 <= d { PARAM } else { d }
}

// The place behind its end.
fn go_up(d: usize) -> usize
    ensures { result ≡ up d }
{
    if d == 16 {
        return 2;
    }
    if d == 24 {
        return 3;
    }
    if 16 <= d { d - 1 } else { 0 }
}

// Its end.
fn append_shut(buffer: &mut [u8], at: usize, d: usize) -> usize
    requires { Room at (shut d) }
    ensures { Laid (shut d) buffer.old at result buffer.new }
{
    let end = append_head(buffer, at, depth_of(d), b"</", innermost_of(d));
    append(buffer, end, b">\n")
}

// The ends of so many elements.
fn append_closings(buffer: &mut [u8], at: usize, n: usize, d: usize) -> usize
    requires { Room at (closings n d) }
    ensures { Laid (closings n d) buffer.old at result buffer.new }
{
    let mut next = at;
    let mut place = d;
    for _ in 0..n {
        next = append_shut(buffer, next, place);
        place = go_up(place);
    }
    next
}

// The element of a line, by its letter.
fn element_for(letter: u8) -> usize
    ensures { result ≡ element_for letter }
{
    find(b"-FBHPVDE", letter)
}

// The level that the line of a Param says.
fn level_in(k: usize, line: &[u8]) -> usize
    ensures { (result ≡ level_in k (fields line.now)) × (result ≤ 7) }
{
    if k == PARAM {
        return read_value(field_of(line, 1), 7) as usize;
    }
    0
}

// How many elements are around it.
fn stands_in(k: usize, level: usize) -> usize
    requires { level ≤ 7 }
    ensures { (result ≡ stands_in k level) × (result ≤ 8) }
{
    if k == PARAM {
        return 1 + level;
    }
    if parent_of(k) == 0 { 0 } else { 1 }
}

// Does it end in its tag?
fn is_alone(k: usize) -> bool
    ensures { result ≡ is_alone k }
{
    matches!(k, 1 | 5 | 7)
}

// What ends its tag.
fn append_ending(buffer: &mut [u8], at: usize, k: usize) -> usize
    requires { Room at (ending k) }
    ensures { Laid (ending k) buffer.old at result buffer.new }
{
    if is_alone(k) {
        return append(buffer, at, b"/>\n");
    }
    append(buffer, at, b">\n")
}

// Its attributes.
fn append_entries(buffer: &mut [u8], at: usize, k: usize, line: &[u8]) -> usize
    requires { Room at (attributes (entries_of k) (fields line.now) (first_field k) 1) }
    ensures { Laid (attributes (entries_of k) (fields line.now) (first_field k) 1) buffer.old at result buffer.new }
{
    let row = row_of(k);
    let a = row.start;
    let e = a + row.len;
    if k == PARAM {
        return append_attributes(buffer, at, &TABLE[a..e], line, 2);
    }
    append_attributes(buffer, at, &TABLE[a..e], line, 1)
}

// What stands behind the name in its tag.
fn append_rest(buffer: &mut [u8], at: usize, k: usize, line: &[u8]) -> usize
    requires { Room at (rest_for k (fields line.now)) }
    ensures { Laid (rest_for k (fields line.now)) buffer.old at result buffer.new }
{
    let end = append_entries(buffer, at, k, line);
    append_ending(buffer, end, k)
}

// The tag of element k for a line.
fn append_tag(buffer: &mut [u8], at: usize, k: usize, level: usize, line: &[u8]) -> usize
    requires { (Room at (tag_for k level (fields line.now))) × (level ≤ 7) }
    ensures { Laid (tag_for k level (fields line.now)) buffer.old at result buffer.new }
{
    let rest = append_head(buffer, at, stands_in(k, level) + 1, b"<", k);
    append_rest(buffer, rest, k, line)
}

// Where it leads.
fn leads_to(d: usize, k: usize, level: usize) -> usize
    requires { level ≤ 7 }
    ensures { result ≡ leads_to d k level }
{
    if k == PARAM {
        if d == 3 || 24 <= d {
            return 24 + level;
        }
        return 16 + level;
    }
    if is_alone(k) { parent_of(k) } else { k }
}

// A line, from a place.
fn append_element(buffer: &mut [u8], at: usize, d: usize, k: usize, line: &[u8]) -> usize
    requires { Room at (element d k (fields line.now)) }
    ensures { Laid (element d k (fields line.now)) buffer.old at result buffer.new }
{
    let level = level_in(k, line);
    let ends = less(depth_of(d), stands_in(k, level));
    let next = append_closings(buffer, at, ends, d);
    append_tag(buffer, next, k, level, line)
}

// The place behind a line.
fn place_after(d: usize, k: usize, line: &[u8]) -> usize
    ensures { result ≡ leads_to d k (level_in k (fields line.now)) }
{
    leads_to(d, k, level_in(k, line))
}

// The element of a line.
fn kind_for(line: &[u8]) -> usize
    ensures { result ≡ kind_for (fields line.now) }
{
    element_for(letter_of(line))
}

// All lines of a text.
fn append_lines(buffer: &mut [u8], at: usize, text: &[u8]) -> usize
    requires { Room at (body 0 (lines text.now)) }
    ensures { Laid (body 0 (lines text.now)) buffer.old at result buffer.new }
{
    let mut next = at;
    let mut start = 0;
    let mut place: usize = 0;
    loop {
        let rest = &text[start..];
        let e = find(rest, 10);
        if e == rest.len() {
            return append_closings(buffer, next, depth_of(place) + 1, place);
        }
        let line = &rest[..e];
        let k = kind_for(line);
        next = append_element(buffer, next, place, k, line);
        place = place_after(place, k, line);
        start = start + e + 1;
    }
}

// The XML of a text from the buffer's start on, as far as there is room; answers how many bytes it has.
pub fn append_xml(text: &[u8], buffer: &mut [u8]) -> usize
    requires { Room 0 (xml_of text.now) }
    ensures { Laid (xml_of text.now) buffer.old 0 result buffer.new }
{
    let next = append(
        buffer,
        0,
        b"<?xml version=\"1.0\" encoding=\"utf-8\"?>\n<FrameDefinition>\n",
    );
    append_lines(buffer, next, text)
}
