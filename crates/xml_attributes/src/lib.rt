// The attributes that are written for a line, by the entries of its element: X13 of docs/RULES.md.
#![tactic(auto, using(crate::proofs::Laws::laws))]

ghost use Rattle.std.specs.Prelude.{◌≡◌, ◌||◌, ◌≤◌, ◌<◌, eqb, length, get_or};
ghost use Rattle.text.specs.Text.{fields};
ghost use Rattle.append.specs.Append.{Room, Laid};
ghost use Rattle.xml_schema.specs.Schema.{name_of, optional_words, optional_number};
ghost use Rattle.xml_attributes.specs.Attributes.{value_for, is_absent, label, written, field_after, digit_after, attributes_by};

use append::{append, append_byte};
use numerals::less;
use readers::line_fields::field_of;
use text::is_missing;
use xml_schema::{
    FLAG, FURTHER_FLAG, HEX_NUMBER, OPTIONAL_NUMBER, OPTIONAL_WORDS, PAST_DIGITS, form_of,
    name_start, next_entry,
};
use xml_spelling::{append_escaped, append_flag, append_hex};

// The form that says field 0 again.
const ZERO_DIGIT: usize = b'0' as usize;

// Byte j of a field, or 0.
fn digit_of(s: &[u8], j: usize) -> u8
    ensures { result ≡ get_or s.now j 0 }
{
    s.get(j).copied().unwrap_or(0)
}

// The value of an attribute that a line has a place for: k is the next field, and j the next digit of the field before it.
fn append_field(buffer: &mut [u8], at: usize, form: u8, line: &[u8], k: usize, j: usize) -> usize
    requires { (Room at (value_for form (fields line.now) k j)) × (0x3a ≤ form) }
    ensures { Laid (value_for form (fields line.now) k j) buffer.old at result buffer.new }
{
    match form {
        FLAG => append_flag(buffer, at, digit_of(field_of(line, k), 0)),
        FURTHER_FLAG => append_flag(buffer, at, digit_of(field_of(line, less(k, 1)), j)),
        HEX_NUMBER => append_hex(buffer, at, field_of(line, k)),
        _ => append_escaped(buffer, at, field_of(line, k)),
    }
}

// The value of an attribute.
fn append_value(buffer: &mut [u8], at: usize, form: u8, line: &[u8], k: usize, j: usize) -> usize
    requires { Room at (value_for form (fields line.now) k j) }
    ensures { Laid (value_for form (fields line.now) k j) buffer.old at result buffer.new }
{
    if form < PAST_DIGITS {
        let again = field_of(line, less(form as usize, ZERO_DIGIT));
        return append_escaped(buffer, at, again);
    }
    append_field(buffer, at, form, line, k, j)
}

// May an attribute of this form be missing?
fn may_miss(form: u8) -> bool
    ensures { result ≡ (eqb form optional_words || eqb form optional_number) }
{
    form == OPTIONAL_WORDS || form == OPTIONAL_NUMBER
}

// Is it missing?
fn is_absent(form: u8, line: &[u8], k: usize) -> bool
    ensures { result ≡ is_absent form (fields line.now) k }
{
    may_miss(form) && is_missing(field_of(line, k))
}

// What stands before the value of an attribute.
fn append_label(buffer: &mut [u8], at: usize, entry: &[u8]) -> usize
    requires { Room at (label (name_of entry.now)) }
    ensures { Laid (label (name_of entry.now)) buffer.old at result buffer.new }
{
    let a = name_start(entry);
    let name = append_byte(buffer, at, b' ');
    let value = append(buffer, name, &entry[a..]);
    append(buffer, value, b"=\"")
}

// The attribute of an entry.
fn append_attribute(
    buffer: &mut [u8],
    at: usize,
    entry: &[u8],
    line: &[u8],
    k: usize,
    j: usize,
) -> usize
    requires { Room at (written entry.now (fields line.now) k j) }
    ensures { Laid (written entry.now (fields line.now) k j) buffer.old at result buffer.new }
{
    let form = form_of(entry);
    if is_absent(form, line, k) {
        return at;
    }
    let value = append_label(buffer, at, entry);
    let end = append_value(buffer, value, form, line, k, j);
    append_byte(buffer, end, b'"')
}

// The next field behind an attribute of this form.
fn field_after(form: u8, k: usize) -> usize
    requires { k < 1000 }
    ensures { result ≡ field_after form k }
{
    if form < PAST_DIGITS {
        return k;
    }
    if form == FURTHER_FLAG { k } else { k + 1 }
}

// The next digit of the field before that.
fn digit_after(form: u8, j: usize) -> usize
    requires { j < 1000 }
    ensures { result ≡ digit_after form j }
{
    if form == FURTHER_FLAG { j + 1 } else { 1 }
}

// The attributes of a row, for a line whose field `first` is the first that they say.
pub fn append_attributes(
    buffer: &mut [u8],
    at: usize,
    row: &[u8],
    line: &[u8],
    first: usize,
) -> usize
    requires { (Room at (attributes_by row.now line.now first)) × (length row.now ≤ 300) × (first ≤ 2) }
    ensures { Laid (attributes_by row.now line.now first) buffer.old at result buffer.new }
{
    let mut next = at;
    let mut rest = row;
    let mut k = first;
    let mut j: usize = 1;
    while let Some((a, len)) = next_entry(rest) {
        rest = &rest[a..];
        let entry = &rest[..len];
        next = append_attribute(buffer, next, entry, line, k, j);
        let form = form_of(entry);
        k = field_after(form, k);
        j = digit_after(form, j);
    }
    next
}
