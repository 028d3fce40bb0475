// Values of attributes: white space, words with escapes, numbers, flags. X4 to X6 of docs/RULES.md.
#![tactic(auto, using(crate::proofs::Laws::laws))]

ghost use Rattle.std.specs.Prelude.{◌≡◌, not, ◌&&◌, ◌≤◌, eqb, length, drop};
ghost use Rattle.text.specs.Text.{split, missing};
ghost use Rattle.xml_schema.specs.Schema.{ampersand};
ghost use Rattle.xml_values.specs.Scan.{is_white, is_letter, lead as leadOf, white, word_len};
ghost use Rattle.xml_values.specs.Values.{entity as entityOf, is_named, named, all_named, loose, is_words, unsigned, is_count, strip, digit_of};
ghost use Rattle.xml_values.specs.Values.{run as run_of};
ghost use Rattle.xml_values.specs.Values.{worth_in, numeral_in, is_hex, numeral as numeral_of, is_among, trues, falses, digit_for, is_numeral, valid, Capped};

use text::{all_within, find, find_word, is_missing, is_same};
use xml_schema::{HEX_NUMBER, NUMBER, OPTIONAL_NUMBER, OPTIONAL_WORDS, PAST_DIGITS, WORDS};

// The greatest number of 32 bits.
const MOST: u64 = 4294967295;

// ---- white space and letters

// Is x a space, a tab, a line end or a carriage return?
pub fn is_white(x: u8) -> bool
    ensures { result ≡ is_white x }
{
    matches!(x, b' ' | b'\t' | b'\n' | b'\r')
}

fn is_letter(x: u8) -> bool
    ensures { result ≡ is_letter x }
{
    matches!(x, b'A'..=b'Z' | b'a'..=b'z')
}

// How many white bytes stand at the front of s.
pub fn lead(s: &[u8]) -> usize
    ensures { (result ≡ leadOf s.now) × (result ≤ length s.now) }
{
    for (i, b) in s.iter().enumerate() {
        if !is_white(*b) {
            return i;
        }
    }
    s.len()
}

// How many letters stand at the front of s.
pub fn word_len(s: &[u8]) -> usize
    ensures { (result ≡ word_len s.now) × (result ≤ length s.now) }
{
    for (i, b) in s.iter().enumerate() {
        if !is_letter(*b) {
            return i;
        }
    }
    s.len()
}

// Is s white space?
pub fn is_blank(s: &[u8]) -> bool
    ensures { result ≡ white s.now }
{
    lead(s) == s.len()
}

// ---- words

// The byte that a name between `&` and `;` stands for, or 0. No Option: that 0 is written where nothing is known, as the specs say.
pub fn entity(n: &[u8]) -> u8
    ensures { result ≡ entityOf n.now }
{
    if is_same(n, b"amp") {
        return b'&';
    }
    if is_same(n, b"lt") {
        return b'<';
    }
    if is_same(n, b"gt") {
        return b'>';
    }
    if is_same(n, b"quot") {
        return b'"';
    }
    if is_same(n, b"apos") {
        return b'\'';
    }
    0
}

// Does p begin with a known name and a `;`?
fn is_named(p: &[u8]) -> bool
    ensures { result ≡ is_named p.now }
{
    let e = find(p, b';');
    e != p.len() && entity(&p[..e]) != 0
}

// Does s begin with a known name and a `;`, and what stands behind each `&` of it?
fn rest_named(s: &[u8]) -> bool
    ensures { result ≡ named (split ampersand s.now) }
{
    let mut at = 0;
    loop {
        let rest = &s[at..];
        let e = find(rest, b'&');
        if !is_named(&rest[..e]) {
            return false;
        }
        if e == rest.len() {
            return true;
        }
        at = at + e + 1;
    }
}

// Does a known name and a `;` stand behind each `&` of v?
fn all_named(v: &[u8]) -> bool
    ensures { result ≡ all_named (split ampersand v.now) }
{
    let e = find(v, b'&');
    if e == v.len() {
        return true;
    }
    rest_named(&v[e + 1..])
}

// May v be the value of an attribute that no line has a place for?
fn is_loose(v: &[u8]) -> bool
    ensures { result ≡ loose v.now }
{
    find(v, b'<') == v.len() && all_named(v)
}

// Can a line hold what v says?
fn is_words(v: &[u8]) -> bool
    ensures { result ≡ is_words v.now }
{
    all_within(v, b' ', 255) && is_loose(v)
}

// ---- numbers

// How many bytes the sign of v takes.
fn sign(v: &[u8]) -> usize
    ensures { (drop result v.now ≡ unsigned v.now) × (result ≤ length v.now) }
{
    if v.len() == 0 {
        return 0;
    }
    if v[0] == b'+' { 1 } else { 0 }
}

// Is v digits, behind a `+` or not?
fn is_count(v: &[u8]) -> bool
    ensures { result ≡ is_count v.now }
{
    let s = sign(v);
    let digits = &v[s..];
    !digits.is_empty() && all_within(digits, b'0', b'9')
}

// How many zeros lead the digits v, its last digit not counted.
fn zeros(v: &[u8]) -> usize
    ensures { (drop result v.now ≡ strip v.now) × (result ≤ length v.now) }
{
    for (i, b) in v.iter().enumerate() {
        if v.len() - i == 1 || *b != b'0' {
            return i;
        }
    }
    v.len()
}

// Where what the number v says begins: behind its sign and its leading zeros.
pub fn count_start(v: &[u8]) -> usize
    ensures { (drop result v.now ≡ strip (unsigned v.now)) × (result ≤ length v.now) }
{
    let s = sign(v);
    let z = zeros(&v[s..]);
    s + z
}

// What a digit is worth; 16 for what is none, since one test, against the base, then refuses it with the digits past the base.
fn digit_of(x: u8) -> u8
    ensures { result ≡ digit_of x }
{
    match x {
        b'0'..=b'9' => x - b'0',
        b'A'..=b'F' => x - b'A' + 10,
        b'a'..=b'f' => x - b'a' + 10,
        _ => 16,
    }
}

// How many digits of the base stand at the front of s.
fn run(base: u8, s: &[u8]) -> usize
    ensures { (result ≡ run_of base s.now) × (result ≤ length s.now) }
{
    for (i, b) in s.iter().enumerate() {
        if base <= digit_of(*b) {
            return i;
        }
    }
    s.len()
}

// What they are worth, or some number past 32 bits if they are worth more.
fn worth(base: u8, s: &[u8]) -> u64
    requires { (1 ≤ base) × (base ≤ 16) }
    ensures { Capped (worth_in base 0 s.now) result }
{
    let mut v: u64 = 0;
    for b in s {
        let d = digit_of(*b);
        if base <= d {
            return v;
        }
        v = v * base as u64 + d as u64;
        if MOST < v {
            return v;
        }
    }
    v
}

// The number of at most 32 bits that s says in the base.
fn numeral_in(base: u8, s: &[u8]) -> Option<u64>
    requires { (1 ≤ base) × (base ≤ 16) }
    ensures { result ≡ numeral_in base s.now }
{
    let n = run(base, s);
    if n < 1 || !is_blank(&s[n..]) {
        return None;
    }
    let v = worth(base, s);
    if v <= MOST { Some(v) } else { None }
}

// Does l begin with 0x or 0X?
fn is_hex(l: &[u8]) -> bool
    ensures { result ≡ is_hex l.now }
{
    matches!(l, [b'0', b'x' | b'X', ..])
}

// The number that l says in the base, after a `+` or not.
fn signed_in(base: u8, l: &[u8]) -> Option<u64>
    requires { (1 ≤ base) × (base ≤ 16) }
    ensures { result ≡ numeral_in base (unsigned l.now) }
{
    let s = sign(l);
    numeral_in(base, &l[s..])
}

// The number that a value says.
pub fn read_numeral(v: &[u8]) -> Option<u64>
    ensures { result ≡ numeral_of v.now }
{
    let w = lead(v);
    let l = &v[w..];
    if is_hex(l) {
        signed_in(16, &l[2..])
    } else {
        signed_in(10, l)
    }
}

// ---- flags

// Is v a spelling of true?
fn is_true(v: &[u8]) -> bool
    ensures { result ≡ is_among trues v.now }
{
    find_word(b"true 1 True TRUE t Yes YES yes y", v) < 9
}

// Is v a spelling of false?
fn is_false(v: &[u8]) -> bool
    ensures { result ≡ is_among falses v.now }
{
    find_word(b"false 0 False FALSE f No NO no n", v) < 9
}

// The digit for a flag; 0 for what is none. No Option, as with an entity.
pub fn digit_for(v: &[u8]) -> u8
    ensures { result ≡ digit_for v.now }
{
    if is_true(v) {
        return b'1';
    }
    if is_false(v) {
        return b'0';
    }
    0
}

// ---- by the form of the attribute

// Can a line hold what v says, and say that it is there?
fn is_optional_words(v: &[u8]) -> bool
    ensures { result ≡ not (missing v.now) && is_words v.now }
{
    !is_missing(v) && is_words(v)
}

// Does v say a number of at most 32 bits?
fn is_numeral(v: &[u8]) -> bool
    ensures { result ≡ is_numeral (numeral_of v.now) }
{
    read_numeral(v).is_some()
}

// Is v a flag?
fn is_flag(v: &[u8]) -> bool
    ensures { result ≡ not (eqb (digit_for v.now) 0) }
{
    digit_for(v) != 0
}

// May an attribute of the form f have the value v?
pub fn is_valid(f: u8, v: &[u8]) -> bool
    ensures { result ≡ valid f v.now }
{
    if f < PAST_DIGITS {
        return is_loose(v);
    }
    match f {
        WORDS => is_words(v),
        OPTIONAL_WORDS => is_optional_words(v),
        HEX_NUMBER => is_numeral(v),
        NUMBER | OPTIONAL_NUMBER => is_count(v),
        _ => is_flag(v),
    }
}
