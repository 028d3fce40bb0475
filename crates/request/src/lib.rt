// The words of a request: which one it starts with, decimal numbers, and bytes in hex.
#![tactic(auto, using(crate::proofs::Laws::laws))]

pub mod row;

ghost use Rattle.std.specs.Prelude.{◌≡◌};
ghost use Rattle.request.specs.Request.{leading_of, two_of, digit_of, pairs_of, bytes_of, Decodes, first_of, second_of, DecodesBoth};

use numerals::numbers::read_value;
use readers::line_fields::find_field;
use text::{find, is_missing};

// The words that a request starts with.
#[derive(Clone, Copy)]
pub enum Word {
    Rate,
    Count,
    Body,
    Record,
    Frames,
    Frametable,
    Recordby,
    Framesby,
    Frametableby,
    Frametext,
    Commandtext,
    Header,
    Command,
    Commandby,
    Bits,
    Checksum,
    Tidy,
    Headernodes,
    Commandnodes,
    Listing,
    Headervalue,
    Commandvalue,
    Totals,
    Xml,
    Unxml,
    Unknown,
}

// The words of the requests that came after the base.
fn later_word_of(word: &[u8]) -> Word {
    let words: &[u8] =
        b"recordby\tframesby\tframetableby\ttidy\tcommandby\theadernodes\tlisting\theadervalue\tcommandnodes\tcommandvalue\ttotals\txml\tunxml";
    match find_field(words, word) {
        0 => Word::Recordby,
        1 => Word::Framesby,
        2 => Word::Frametableby,
        3 => Word::Tidy,
        4 => Word::Commandby,
        5 => Word::Headernodes,
        6 => Word::Listing,
        7 => Word::Headervalue,
        8 => Word::Commandnodes,
        9 => Word::Commandvalue,
        10 => Word::Totals,
        11 => Word::Xml,
        12 => Word::Unxml,
        _ => Word::Unknown,
    }
}

pub fn word_of(word: &[u8]) -> Word {
    let words: &[u8] =
        b"rate\tcount\tbody\trecord\tframes\tframetable\tframetext\tcommandtext\theader\tcommand\tbits\tchecksum";
    match find_field(words, word) {
        0 => Word::Rate,
        1 => Word::Count,
        2 => Word::Body,
        3 => Word::Record,
        4 => Word::Frames,
        5 => Word::Frametable,
        6 => Word::Frametext,
        7 => Word::Commandtext,
        8 => Word::Header,
        9 => Word::Command,
        10 => Word::Bits,
        11 => Word::Checksum,
        _ => later_word_of(word),
    }
}

// The number that words start with, and where the others start.
pub fn read_leading(words: &[u8]) -> Option<(u64, usize)>
    ensures { result ≡ leading_of words.now }
{
    let e = find(words, b' ');
    if e == words.len() {
        return None;
    }
    let n = read_value(&words[..e])?;
    Some((n, e + 1))
}

// The two numbers that words start with, and where the others start.
pub fn read_two(words: &[u8]) -> Option<(u64, u64, usize)>
    ensures { result ≡ two_of words.now }
{
    let (first, at) = read_leading(words)?;
    let (second, from) = read_leading(&words[at..])?;
    Some((first, second, at + from))
}

// What a hex digit says, in lower case; 16 for what is none.
fn read_digit(b: u8) -> u8
    ensures { result ≡ digit_of b }
{
    if b < b'0' {
        return 16;
    }
    if b <= b'9' {
        return b - b'0';
    }
    if b < b'a' {
        return 16;
    }
    if b <= b'f' {
        return b - 87;
    }
    16
}

// The bytes that pairs of hex digits say.
fn read_pairs(word: &[u8], bytes: &mut [u8]) -> Option<usize>
    ensures { Decodes (pairs_of word.now) bytes.new result }
{
    let n = word.len() / 2;
    if word.len() != n * 2 {
        return None;
    }
    if bytes.len() < n {
        return None;
    }
    for i in 0..n {
        let high = read_digit(word[i * 2]);
        if 16 <= high {
            return None;
        }
        let low = read_digit(word[i * 2 + 1]);
        if 16 <= low {
            return None;
        }
        bytes[i] = high * 16 + low;
    }
    Some(n)
}

// The bytes that a word says: pairs of hex digits, or `-` for none. More bytes than the buffer holds are not decoded.
pub fn read_bytes(word: &[u8], bytes: &mut [u8]) -> Option<usize>
    ensures { Decodes (bytes_of word.now) bytes.new result }
{
    if word.len() == 0 {
        return None;
    }
    if is_missing(word) {
        return Some(0);
    }
    read_pairs(word, bytes)
}

// The bytes that two words say. They have to have room in the buffer together.
pub fn read_both(words: &[u8], bytes: &mut [u8]) -> Option<(usize, usize)>
    ensures { DecodesBoth (first_of words.now) (second_of words.now) bytes.new result }
{
    let e = find(words, b' ');
    if e == words.len() {
        return None;
    }
    let n = read_bytes(&words[..e], bytes)?;
    let m = read_bytes(&words[e + 1..], &mut bytes[n..])?;
    Some((n, n + m))
}
