// What is wrong with a field of a definition text: an author is told this where a line is refused by 1.
ghost use Rattle.std.specs.Prelude.{◌≡◌, ◌+◌, ◌≤◌, ◌<◌, ◌^◌, length};
ghost use Rattle.text.specs.Text.{split};
ghost use Rattle.text_faults.specs.Fault.{right, is_right, outside, why_number, why_name, why_plain, why_part, why_parts, why_path, why, fault_of};

use text::{find, is_decimal, is_missing, is_name};

// What a field must be.
#[derive(Clone, Copy)]
pub enum Want {
    // A number from 0 to this.
    Number(u16),
    // That, or `-`.
    OptionalNumber(u16),
    // A number of any size: one over 7 is refused by 2.
    Level,
    Name,
    // A name without a dot.
    Plain,
    OptionalName,
    Path,
    OptionalPath,
    Flags,
    FrameType,
    CommandType,
}

// What is wrong with a field. A place is that of a byte in the field, from 0.
#[derive(Clone, Copy)]
pub enum Fault {
    Right,
    Empty,
    // `-` where nothing may be missing.
    Dash,
    // No digit stands at this place.
    NotDigit(usize),
    LeadingZero,
    // A number over the greatest that the field may be.
    Over,
    // A name of over 40 bytes, or a path of over 120.
    TooLong,
    // A byte outside 0x20 to 0x7E stands at this place.
    Unprintable(usize),
    // The first dot stands at this place.
    Dot(usize),
    // The part of a path that begins at this place is empty.
    EmptyPart(usize),
    // That part is `-`.
    DashPart(usize),
    // That part has over 40 bytes.
    LongPart(usize),
    NoType,
    NoFlags,
}

impl Fault {
    pub fn is_right(self) -> bool
        ensures { result ≡ is_right self }
    {
        matches!(self, Fault::Right)
    }
}

// Is s as wanted?
fn is_wanted(want: Want, s: &[u8]) -> bool
    ensures { result ≡ right want s.now }
{
    match want {
        Want::Number(most) => text::is_number(s, most),
        Want::OptionalNumber(most) => text::is_optional_number(s, most),
        Want::Level => is_decimal(s),
        Want::Name => is_name(s),
        Want::Plain => text::is_plain(s),
        Want::OptionalName => text::is_optional_name(s),
        Want::Path => text::is_path(s),
        Want::OptionalPath => text::is_optional_path(s),
        Want::Flags => frame_text::is_flags(s),
        Want::FrameType => frame_text::is_type(s),
        Want::CommandType => command_text::is_type(s),
    }
}

// Where the first byte of s stands that isn't from lo to hi, or s's length where there is none.
fn find_outside(s: &[u8], lo: u8, hi: u8) -> usize
    ensures { (result ≡ outside lo hi s.now) × (result ≤ length s.now) }
{
    for (i, &b) in s.iter().enumerate() {
        if b < lo || hi < b {
            return i;
        }
    }
    s.len()
}

// Why s isn't the number that it should be.
fn why_number(s: &[u8]) -> Fault
    ensures { result ≡ why_number s.now }
{
    if is_decimal(s) {
        return Fault::Over;
    }
    let at = find_outside(s, b'0', b'9');
    if at < s.len() {
        return Fault::NotDigit(at);
    }
    Fault::LeadingZero
}

// Why s isn't a name.
fn why_name(s: &[u8]) -> Fault
    ensures { result ≡ why_name s.now }
{
    if 40 < s.len() {
        return Fault::TooLong;
    }
    Fault::Unprintable(find_outside(s, 0x20, 0x7e))
}

// Why s isn't a name without a dot.
fn why_plain(s: &[u8]) -> Fault
    ensures { result ≡ why_plain s.now }
{
    if is_name(s) {
        return Fault::Dot(find(s, b'.'));
    }
    why_name(s)
}

// Why s, the part of a path that begins at `at`, isn't a name.
fn why_part(s: &[u8], at: usize) -> Fault
    requires { at + length s.now < 2 ^ 64 }
    ensures { result ≡ why_part at s.now }
{
    if s.is_empty() {
        return Fault::EmptyPart(at);
    }
    if is_missing(s) {
        return Fault::DashPart(at);
    }
    if 40 < s.len() {
        return Fault::LongPart(at);
    }
    Fault::Unprintable(at + find_outside(s, 0x20, 0x7e))
}

// Why one of the parts of s isn't a name: the first that isn't.
fn why_parts(s: &[u8]) -> Fault
    ensures { result ≡ why_parts 0 (split 46 s.now) }
{
    let mut at = 0;
    loop {
        let rest = &s[at..];
        let e = find(rest, b'.');
        if e == rest.len() {
            return why_part(rest, at);
        }
        if !is_name(&rest[..e]) {
            return why_part(&rest[..e], at);
        }
        at = at + e + 1;
    }
}

// Why s isn't a path.
fn why_path(s: &[u8]) -> Fault
    ensures { result ≡ why_path s.now }
{
    if 120 < s.len() {
        return Fault::TooLong;
    }
    why_parts(s)
}

// Why s, which isn't empty and isn't `-`, isn't as wanted.
fn why_not(want: Want, s: &[u8]) -> Fault
    ensures { result ≡ why want s.now }
{
    match want {
        Want::Number(_) | Want::OptionalNumber(_) | Want::Level => why_number(s),
        Want::Name | Want::OptionalName => why_name(s),
        Want::Plain => why_plain(s),
        Want::Path | Want::OptionalPath => why_path(s),
        Want::Flags => Fault::NoFlags,
        Want::FrameType | Want::CommandType => Fault::NoType,
    }
}

// What is wrong with the field s.
pub fn find_fault(want: Want, s: &[u8]) -> Fault
    ensures { result ≡ fault_of want s.now }
{
    if is_wanted(want, s) {
        return Fault::Right;
    }
    if s.is_empty() {
        return Fault::Empty;
    }
    if is_missing(s) {
        return Fault::Dash;
    }
    why_not(want, s)
}
