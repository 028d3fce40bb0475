// The definition that an accepted command text stands for, and looking things up in it: every loop reads on from a place where a line begins.
// Counterpart of command_class/schema.rs.
#![tactic(auto, using(crate::proofs::Numbering::name_laws, crate::proofs::Naming::const_laws, crate::proofs::Naming::value_laws, crate::proofs::Finding::among_laws, crate::proofs::Beginning::begin_laws, crate::proofs::Rows::optional_laws, crate::proofs::Rows::row_laws, crate::proofs::Rows::read_laws, crate::proofs::Params::condition_laws, crate::proofs::Numbering::numbered_laws, crate::proofs::Params::param_laws, crate::proofs::Rows::last_kind, crate::proofs::Rows::type_says))]

ghost use Rattle.std.specs.Prelude.{◌≡◌, true, false, ◌<◌, eqb, length, Some};
ghost use Rattle.text.specs.Fields.{fields_at};
ghost use Rattle.text.specs.Records.{Readable};
ghost use Rattle.command_text.specs.Letters.{letter_q, letter_g, letter_r, letter_a, letter_t, letter_s, letter_k, letter_m};
ghost use Rattle.command_text.specs.Form.{type_of, known};
ghost use Rattle.command_text.specs.Rules.{rules};
ghost use Rattle.command_class.specs.Definition.{under, read_as, first_const, value_in, const_in};
ghost use Rattle.command_class.specs.Find.{from, Good, among, number_or, Tells, Numbers, IsRead, IsCondition, Begins, Follows};

use command_text::ParamType;
use text::{Line, Optional, Place};

// How a missing offset, mask or length is kept: the others are up to 255.
pub const NO_NUMBER: u16 = 256;

// What a line says, as numbers; NO_NUMBER for a missing offset, mask or length, 0 where the line has no such number.
#[derive(Clone, Copy)]
pub struct Row {
    pub kind: u8,
    pub level: u16,
    pub typed: ParamType,
    pub offset: u16,
    pub mask: u16,
    pub shift: u16,
    pub value: u16,
    pub ascii: bool,
}

// What a line says whose kind has none of the numbers.
const BLANK: Row = Row {
    kind: 0,
    level: 0,
    typed: ParamType::Byte,
    offset: 0,
    mask: 0,
    shift: 0,
    value: 0,
    ascii: false,
};

// A line, and the place after it.
#[derive(Clone, Copy)]
pub struct Read {
    pub row: Row,
    pub next: Place,
}

// What the last two fields of a Q line say, and where the line ends.
#[derive(Clone, Copy)]
struct Condition {
    offset: u16,
    mask: u16,
    end: usize,
}

// Is it a kind that begins an entry: a Q or a G?
pub fn is_entry(kind: u8) -> bool
    ensures { result ≡ among letter_q letter_g letter_g kind }
{
    kind == b'Q' || kind == b'G'
}

// The number that a field says, or NO_NUMBER where it is missing.
fn or_missing(s: &[u8]) -> u16
    ensures { result ≡ number_or s.now }
{
    match text::read_optional(s, 255) {
        Optional::Given(n) => n,
        Optional::Missing | Optional::Wrong => NO_NUMBER,
    }
}

// The type that a field names, where it names one.
fn type_of(s: &[u8]) -> ParamType
    requires { known (type_of s.now) ≡ true }
    ensures { type_of s.now ≡ Some result }
{
    command_text::read_type(s).unwrap_or(ParamType::Byte)
}

// What a G line says.
fn read_group(text: &[u8], line: Line) -> Row
    requires { (Good text.now line) × (line.kind ≡ letter_g) }
    ensures { Tells text.now line result }
{
    Row {
        kind: b'G',
        offset: line.value(text, 2, 255),
        mask: line.value(text, 3, 255),
        shift: line.value(text, 4, 255),
        ..BLANK
    }
}

// What an R line says.
fn read_variant(text: &[u8], line: Line) -> Row
    requires { (Good text.now line) × (line.kind ≡ letter_r) }
    ensures { Tells text.now line result }
{
    Row {
        kind: b'R',
        offset: line.value(text, 1, 255),
        mask: line.value(text, 2, 255),
        shift: line.optional_value(text, 3, 255),
        ascii: line.value(text, 4, 1) == 1,
        ..BLANK
    }
}

// What an A line says.
fn read_array(text: &[u8], line: Line) -> Row
    requires { (Good text.now line) × (line.kind ≡ letter_a) }
    ensures { Tells text.now line result }
{
    Row {
        kind: b'A',
        value: line.value(text, 1, 255),
        ascii: line.value(text, 2, 1) == 1,
        ..BLANK
    }
}

// What an M line says.
fn read_bitmask(text: &[u8], line: Line) -> Row
    requires { (Good text.now line) × (line.kind ≡ letter_m) }
    ensures { Tells text.now line result }
{
    Row {
        kind: b'M',
        value: or_missing(line.field(text, 1)),
        ..BLANK
    }
}

// What a line says that is no T, S, K or Q.
fn read_row(text: &[u8], line: Line) -> Row
    requires { (Good text.now line) × (among letter_t letter_s letter_k (read_as line.kind) ≡ false) × (eqb line.kind letter_q ≡ false) }
    ensures { Tells text.now line result }
{
    match line.kind {
        b'G' => read_group(text, line),
        b'R' => read_variant(text, line),
        b'A' => read_array(text, line),
        _ => read_bitmask(text, line),
    }
}

// The kind of the line at a place: its first byte, where a U is read as an S.
pub fn kind_at(text: &[u8], place: Place) -> u8
    requires { (Readable rules text.now place) × (place.at < length text.now) }
    ensures { Begins text.now place result }
{
    let kind = text[place.at];
    if kind == b'U' { b'S' } else { kind }
}

// Is it a kind whose numbers stand in front of its name: a T, S or K?
fn is_numbered(kind: u8) -> bool
    ensures { result ≡ among letter_t letter_s letter_k kind }
{
    kind == b'T' || (kind == b'S' || kind == b'K')
}

// The last two fields of a Q line, which begin at `at`.
fn read_condition(text: &[u8], at: usize) -> Condition
    requires { length (fields_at text.now at) ≡ 2 }
    ensures { IsCondition text.now at result }
{
    let offset_end = text::field_end(text, at);
    let mask = offset_end + 1;
    let end = text::line_end(text, mask);
    Condition {
        offset: or_missing(&text[at..offset_end]),
        mask: or_missing(&text[mask..end]),
        end,
    }
}

// A Q line, and the place after it. The level is one digit; of the other fields only those are read that say the type and numbers.
fn read_param(text: &[u8], place: Place) -> Read
    requires { (Readable rules text.now place) × (place.at < length text.now) × (Begins text.now place letter_q) }
    ensures { IsRead text.now place result }
{
    let level = place.at + 2;
    let level_end = place.at + 3;
    let at = place.at + 4;
    let type_end = text::field_end(text, at);
    let name = type_end + 1;
    let condition = read_condition(text, text::field_end(text, name) + 1);
    Read {
        row: Row {
            kind: b'Q',
            level: text::read_value(&text[level..level_end], 1),
            typed: type_of(&text[at..type_end]),
            offset: condition.offset,
            mask: condition.mask,
            ..BLANK
        },
        next: Place {
            at: condition.end + 1,
            line: place.line + 1,
        },
    }
}

// What a T, S or K line says. Of its fields only the numbers are looked for: they stand behind the kind, and a tab ends each.
fn read_numbered(text: &[u8], place: Place, kind: u8) -> Row
    requires { (Readable rules text.now place) × (place.at < length text.now) × (Begins text.now place kind)
        × (among letter_t letter_s letter_k kind ≡ true) }
    ensures { Numbers text.now place result }
{
    let at = place.at + 2;
    let end = text::field_end(text, at);
    let number = text::read_value(&text[at..end], 255);
    if kind == b'K' {
        return Row {
            kind,
            value: number,
            ..BLANK
        };
    }
    if kind == b'T' {
        return Row {
            kind,
            mask: number,
            ..BLANK
        };
    }
    let shift = end + 1;
    let shift_end = text::field_end(text, shift);
    Row {
        kind,
        mask: number,
        shift: text::read_optional_value(&text[shift..shift_end], 255),
        ..BLANK
    }
}

// The line at a place, and the place after it.
pub fn read_at(text: &[u8], place: Place) -> Read
    requires { (Readable rules text.now place) × (place.at < length text.now) }
    ensures { IsRead text.now place result }
{
    let kind = kind_at(text, place);
    if is_numbered(kind) {
        return Read {
            row: read_numbered(text, place, kind),
            next: place.pass(text),
        };
    }
    if kind == b'Q' {
        return read_param(text, place);
    }
    let line = place.step(text);
    Read {
        row: read_row(text, line),
        next: line.next,
    }
}

// The place after the line at a place, of which only its end is looked for.
pub fn pass_at(text: &[u8], place: Place) -> Place
    requires { (Readable rules text.now place) × (place.at < length text.now) }
    ensures { Follows text.now place result }
{
    place.pass(text)
}

// Is the line at a place a K with this value?
fn is_const(text: &[u8], place: Place, value: u16) -> bool
    requires { (Readable rules text.now place) × (place.at < length text.now) }
    ensures { result ≡ value_in value (from text.now place) }
{
    let kind = kind_at(text, place);
    kind == b'K' && read_numbered(text, place, kind).value == value
}

// The line of the first K with a value under the Q before the place, or 0.
pub fn find_const(text: &[u8], start: Place, value: u16) -> usize
    requires { Readable rules text.now start }
    ensures { result ≡ first_const value (under (from text.now start)) }
{
    let mut place = start;
    while place.at < text.len() {
        if is_entry(kind_at(text, place)) {
            return 0;
        }
        if is_const(text, place, value) {
            return place.line;
        }
        place = pass_at(text, place);
    }
    0
}

// The name of the line at a place, if it is a K: it stands behind the number, up to the line's end.
pub fn const_name(text: &[u8], place: Place) -> &[u8]
    requires { (Readable rules text.now place) × (place.at < length text.now) }
    ensures { result.now ≡ const_in (from text.now place) }
{
    if kind_at(text, place) != b'K' {
        return &text[..0];
    }
    let at = place.at + 2;
    let name = text::field_end(text, at) + 1;
    let end = text::line_end(text, name);
    &text[name..end]
}
