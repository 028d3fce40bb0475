// The forms of both definition texts, and what is wrong with a field, in words; the fields are named as in docs/RULES.md.
use output::prose::{say, say_number, show};
use readers::line_fields::field_of;
use readers::lines::find_line;
use text_faults::fault::{Fault, Want};

// Piece k of words that are parted by tabs.
pub fn say_piece(words: &[u8], k: usize) {
    say(field_of(words, k));
}

// The name of field k after a letter, from 1.
pub fn say_field(letter: u8, k: usize) {
    let forms: &[u8] = b"F\tcode\tbase key
B\tkey
H\tkey\tbase key\tflags\tname
P\tlevel\torder\tbits\ttype\tname\tdefine set\toptional path\tsize path
V\tpath\tvalue
D\tset name
E\tkey\ttext
Q\tlevel\ttype\tname\toptional offset\toptional mask
G\tname\toffset\tmask\tshift
R\toffset\tmask\tshift\tascii
A\tlength\tascii
T\tmask\tname
S\tmask\tshift\tname
U\tmask\tshift\tname
K\tvalue\tname
M\tlength
";
    say_piece(find_line(forms, letter, 0), k);
}

// The names of the n fields after a letter.
pub fn say_fields(letter: u8, n: usize) {
    for k in 0..n {
        if 0 < k {
            say(b", ");
        }
        say_field(letter, k + 1);
    }
}

// A number of at most this, and what else the field may be.
fn say_number_want(most: u16, rest: &[u8]) {
    if most == 1 {
        say(b"0 or 1");
    } else {
        say(b"a number from 0 to ");
        say_number(most as usize);
    }
    say(rest);
}

// What a field must be.
pub fn say_want(want: Want) {
    let words: &[u8] = b"\t, or - for none\t\
        a name of 1 to 40 printable characters, not -\t\
        a name of 1 to 40 printable characters, not - and without a dot\t\
        a name of 1 to 40 printable characters, or - for none\t\
        a path, names joined by dots, 120 bytes in all at most\t\
        a path, names joined by dots, 120 bytes in all at most, or - for none\t\
        four digits 0 or 1, for ack, routed, multicast and error\t\
        one of HEX, NUMBER, NUMBER_SIGNED, NODE_NUMBER, BOOLEAN, BITMASK\t\
        one of BYTE, STRUCT_BYTE, CONST, MARKER, WORD, BIT_24, DWORD, ARRAY, VARIANT, BITMASK, MULTI_ARRAY";
    match want {
        Want::Number(most) => say_number_want(most, field_of(words, 0)),
        Want::OptionalNumber(most) => say_number_want(most, field_of(words, 1)),
        Want::Level => say_number_want(7, field_of(words, 0)),
        Want::Name => say_piece(words, 2),
        Want::Plain => say_piece(words, 3),
        Want::OptionalName => say_piece(words, 4),
        Want::Path => say_piece(words, 5),
        Want::OptionalPath => say_piece(words, 6),
        Want::Flags => say_piece(words, 7),
        Want::FrameType => say_piece(words, 8),
        Want::CommandType => say_piece(words, 9),
    }
}

// What is wrong with the byte at a place of a field, from 0.
fn say_byte(s: &[u8], at: usize, what: &[u8]) {
    if at < s.len() {
        let e = at + 1;
        say(b"its byte ");
        say_number(e);
        say(b", '");
        show(&s[at..e]);
        say(b"', ");
        say(what);
        if s[at] == 13 {
            say(b" (a carriage return, where 0x0a alone ends a line)");
        }
    }
}

// What is wrong with the name in a path that begins at a place.
fn say_part_fault(at: usize, what: &[u8]) {
    if at == 0 {
        say(b"its first name ");
    } else {
        say(b"the name after its first ");
        say_number(at);
        say(b" bytes ");
    }
    say(what);
}

fn say_length(s: &[u8]) {
    say(b"it has ");
    say_number(s.len());
    say(b" bytes");
}

// What is wrong with the field s.
pub fn say_fault(fault: Fault, s: &[u8]) {
    let words: &[u8] =
        b"it is right\tit is empty\tit may not be missing\tis no digit\tit begins with a 0 too many\tit is too great\t\
        is not printable\tis a dot\tis empty\tis -\thas more than 40 bytes\tit is no type\tit is no set of flags";
    match fault {
        Fault::Right => say_piece(words, 0),
        Fault::Empty => say_piece(words, 1),
        Fault::Dash => say_piece(words, 2),
        Fault::NotDigit(at) => say_byte(s, at, field_of(words, 3)),
        Fault::LeadingZero => say_piece(words, 4),
        Fault::Over => say_piece(words, 5),
        Fault::TooLong => say_length(s),
        Fault::Unprintable(at) => say_byte(s, at, field_of(words, 6)),
        Fault::Dot(at) => say_byte(s, at, field_of(words, 7)),
        Fault::EmptyPart(at) => say_part_fault(at, field_of(words, 8)),
        Fault::DashPart(at) => say_part_fault(at, field_of(words, 9)),
        Fault::LongPart(at) => say_part_fault(at, field_of(words, 10)),
        Fault::NoType => say_piece(words, 11),
        Fault::NoFlags => say_piece(words, 12),
    }
}
