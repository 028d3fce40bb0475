// The command text: which texts are accepted, and which line of any other is refused by which number.
// The forms are those of command_class/schema.rs, a line each; a field enum is read as a bit field.
#![tactic(auto, using(text::proofs::Tests::count_other, crate::proofs::Keeping::check_laws, crate::proofs::Laws::type_laws, crate::proofs::Laws::read_laws, crate::proofs::Laws::kind_laws, crate::proofs::Laws::of_type_lem))]

ghost use Rattle.std.specs.Prelude.{◌≡◌, Some};
ghost use Rattle.text.specs.Text.{field};
ghost use Rattle.text.specs.Judge.{Checks};
ghost use Rattle.text.specs.Place.{kind_of, cells, Marked, Has};
ghost use Rattle.command_text.specs.Form.{type_among, type_of, known, param_words, param_condition, param_fields, group_fields};
ghost use Rattle.command_text.specs.Form.{variant_fields, bits_fields, group_form, variant_form, array_form, named_form, bits_form, bitmask_form, param_said};
ghost use Rattle.command_text.specs.Form.{said, form, group, item, variant, group_of, size_of, bit_field, bits_of};
ghost use Rattle.command_text.specs.Rules.{rules};
ghost use Rattle.command_text.specs.Shape.{late_types, last_types, tagged, shape};

use command_kept::Form;
use refusal::Refusal;
use text::{Line, MOST_BYTES, Place, is_same};

// The type of a parameter, by the XML names of the source.
#[derive(Clone, Copy)]
pub enum ParamType {
    Byte,
    StructByte,
    Const,
    Marker,
    Word,
    Bit24,
    Dword,
    Array,
    Variant,
    Bitmask,
    MultiArray,
}

// The type that s names, of the last three.
fn read_last_type(s: &[u8]) -> Option<ParamType>
    ensures { result ≡ type_among last_types s.now }
{
    if is_same(s, b"VARIANT") {
        return Some(ParamType::Variant);
    }
    if is_same(s, b"BITMASK") {
        return Some(ParamType::Bitmask);
    }
    if is_same(s, b"MULTI_ARRAY") {
        return Some(ParamType::MultiArray);
    }
    None
}

// The type that s names, of those behind the first four.
fn read_late_type(s: &[u8]) -> Option<ParamType>
    ensures { result ≡ type_among late_types s.now }
{
    if is_same(s, b"WORD") {
        return Some(ParamType::Word);
    }
    if is_same(s, b"BIT_24") {
        return Some(ParamType::Bit24);
    }
    if is_same(s, b"DWORD") {
        return Some(ParamType::Dword);
    }
    if is_same(s, b"ARRAY") {
        return Some(ParamType::Array);
    }
    read_last_type(s)
}

// The type that s names.
pub fn read_type(s: &[u8]) -> Option<ParamType>
    ensures { result ≡ type_of s.now }
{
    if is_same(s, b"BYTE") {
        return Some(ParamType::Byte);
    }
    if is_same(s, b"STRUCT_BYTE") {
        return Some(ParamType::StructByte);
    }
    if is_same(s, b"CONST") {
        return Some(ParamType::Const);
    }
    if is_same(s, b"MARKER") {
        return Some(ParamType::Marker);
    }
    read_late_type(s)
}

pub fn is_type(s: &[u8]) -> bool
    ensures { result ≡ known (type_of s.now) }
{
    read_type(s).is_some()
}

fn type_at(text: &[u8], line: Line, k: usize) -> bool
    requires { Has text.now line k }
    ensures { result ≡ known (type_of (field k (cells text.now line))) }
{
    is_type(line.field(text, k))
}

fn has_words(text: &[u8], line: Line) -> bool
    requires { (Marked text.now line.marks line.fields) × (line.fields ≡ 6) }
    ensures { result ≡ param_words (cells text.now line) }
{
    line.is_number(text, 1, 1) && (type_at(text, line, 2) && line.is_name(text, 3))
}

fn has_condition(text: &[u8], line: Line) -> bool
    requires { (Marked text.now line.marks line.fields) × (line.fields ≡ 6) }
    ensures { result ≡ param_condition (cells text.now line) }
{
    line.is_optional_number(text, 4, 255) && line.is_optional_number(text, 5, 255)
}

fn is_param(text: &[u8], line: Line) -> bool
    requires { (Marked text.now line.marks line.fields) × (line.fields ≡ 6) }
    ensures { result ≡ param_fields (cells text.now line) }
{
    has_words(text, line) && has_condition(text, line)
}

fn is_group(text: &[u8], line: Line) -> bool
    requires { (Marked text.now line.marks line.fields) × (line.fields ≡ 5) }
    ensures { result ≡ group_fields (cells text.now line) }
{
    line.is_name(text, 1)
        && (line.is_number(text, 2, 255)
            && (line.is_number(text, 3, 255) && line.is_number(text, 4, 255)))
}

fn is_variant(text: &[u8], line: Line) -> bool
    requires { (Marked text.now line.marks line.fields) × (line.fields ≡ 5) }
    ensures { result ≡ variant_fields (cells text.now line) }
{
    line.is_number(text, 1, 255)
        && (line.is_number(text, 2, 255)
            && (line.is_optional_number(text, 3, 255) && line.is_number(text, 4, 1)))
}

fn is_array(text: &[u8], line: Line) -> bool
    requires { Marked text.now line.marks line.fields }
    ensures { result ≡ array_form (cells text.now line) }
{
    line.fields == 3 && (line.is_number(text, 1, 255) && line.is_number(text, 2, 1))
}

fn is_named(text: &[u8], line: Line) -> bool
    requires { Marked text.now line.marks line.fields }
    ensures { result ≡ named_form (cells text.now line) }
{
    line.fields == 3 && (line.is_number(text, 1, 255) && line.is_name(text, 2))
}

fn is_bits(text: &[u8], line: Line) -> bool
    requires { (Marked text.now line.marks line.fields) × (line.fields ≡ 4) }
    ensures { result ≡ bits_fields (cells text.now line) }
{
    line.is_number(text, 1, 255) && (line.is_optional_number(text, 2, 255) && line.is_name(text, 3))
}

fn is_bitmask(text: &[u8], line: Line) -> bool
    requires { Marked text.now line.marks line.fields }
    ensures { result ≡ bitmask_form (cells text.now line) }
{
    line.fields == 2 && line.is_optional_number(text, 1, 255)
}

fn read_param(text: &[u8], line: Line) -> Option<Form>
    requires { Marked text.now line.marks line.fields }
    ensures { result ≡ shape (param_said (cells text.now line)) }
{
    if line.fields != 6 || !is_param(text, line) {
        return None;
    }
    Some(Form::Param {
        level: line.value(text, 1, 1),
    })
}

fn read_group(text: &[u8], line: Line) -> Option<Form>
    requires { Marked text.now line.marks line.fields }
    ensures { result ≡ shape (said (group_form (cells text.now line)) (Some (group (group_of (cells text.now line))))) }
{
    if line.fields != 5 || !is_group(text, line) {
        return None;
    }
    Some(Form::Group {
        shift: line.value(text, 4, 255),
    })
}

fn read_variant(text: &[u8], line: Line) -> Option<Form>
    requires { Marked text.now line.marks line.fields }
    ensures { result ≡ shape (said (variant_form (cells text.now line))
        (Some (item (variant (size_of (cells text.now line)))))) }
{
    if line.fields != 5 || !is_variant(text, line) {
        return None;
    }
    Some(Form::Item {
        shift: line.optional_value(text, 3, 255),
    })
}

fn read_bits(text: &[u8], line: Line) -> Option<Form>
    requires { Marked text.now line.marks line.fields }
    ensures { result ≡ shape (said (bits_form (cells text.now line)) (Some (item (bit_field (bits_of (cells text.now line)))))) }
{
    if line.fields != 4 || !is_bits(text, line) {
        return None;
    }
    Some(Form::Item {
        shift: line.optional_value(text, 2, 255),
    })
}

// An item line without a shift, if the line has its form.
fn item(good: bool) -> Option<Form>
    ensures { result ≡ tagged good (Form.Item 0) }
{
    good.then_some(Form::Item { shift: 0 })
}

// Which form the line has, and what limits and owners look at in it.
fn read_form(text: &[u8], line: Line) -> Option<Form>
    requires { (Marked text.now line.marks line.fields) × (line.kind ≡ kind_of (cells text.now line)) }
    ensures { result ≡ shape (form (cells text.now line)) }
{
    match line.kind {
        b'Q' => read_param(text, line),
        b'G' => read_group(text, line),
        b'R' => read_variant(text, line),
        b'A' => item(is_array(text, line)),
        b'T' => item(is_named(text, line)),
        b'S' => read_bits(text, line),
        b'U' => read_bits(text, line),
        b'K' => item(is_named(text, line)),
        b'M' => item(is_bitmask(text, line)),
        _ => None,
    }
}

// The verdict on a command text.
pub fn check_command_text(text: &[u8]) -> Result<(), Refusal>
    ensures { Checks rules text.now result }
{
    if MOST_BYTES < text.len() {
        return Err(Refusal::Limit(0));
    }
    let mut place = Place::start();
    let mut kept = command_kept::start();
    while place.at < text.len() {
        let line = place.step(text);
        kept = kept
            .judge(read_form(text, line))
            .map_err(|misfit| misfit.at(place.line))?;
        place = line.next;
    }
    Ok(())
}
