// Numbers and bytes as text: decimal, signed, hexadecimal. And decimal numbers read.
#![tactic(auto, using(crate::proofs::Laws::laws, crate::proofs::Decimals::laws))]

pub mod numbers;

ghost use Rattle.std.specs.Prelude.{◌≡◌, ◌&&◌, [], ◌∷◌, ◌++◌, ◌+◌, ◌-◌, ◌*◌, ◌^◌, ◌≤◌, ◌<◌, eqb, length};
ghost use Rattle.std.proofs.lemmas.List.Edits.{sets};
ghost use Rattle.buffer.specs.Buffer.{Writes};
ghost use Rattle.numerals.specs.Numerals.{room, glyph as glyphOf, spelled, decimal as decimalOf, signed as signed_of, hex as hexOf, pairs, Spells};

use buffer::put;
use refusal::Refusal;

// The room in which a number is spelled, up to its end: 20 digits are enough for 64 bits, and before them is room for a mark of two bytes.
pub const ROOM: usize = 22;

// The digit for ten, in capitals.
pub const CAPITAL: u8 = b'A';

// A digit, where `ten` stands for ten.
pub fn glyph(ten: u8, d: u8) -> u8
    requires { (ten ≤ 128) × (d < 16) }
    ensures { result ≡ glyphOf ten d }
{
    if d < 10 { b'0' + d } else { ten + (d - 10) }
}

// Are all digits there? So much is left of the number, and so many digits are still asked for.
fn is_spelled(rest: u64, left: usize) -> bool
    ensures { result ≡ eqb rest 0 && eqb left 0 }
{
    rest == 0 && left == 0
}

// What is left of a number without another, or 0.
pub fn less(n: usize, by: usize) -> usize
    ensures { result ≡ n - by }
{
    n.saturating_sub(by)
}

// Spells a number in a base, with at least so many digits, and answers where it begins.
pub fn spell(n: u64, base: u8, ten: u8, least: usize, out: &mut [u8]) -> usize
    requires { (length out.old ≡ room) × (2 ≤ base) × (base ≤ 16) × (ten ≤ 128) × (n < base ^ 20) × (least ≤ 20) }
    ensures { Spells 2 (spelled base ten 20 least n) result out.new }
{
    let mut at: usize = ROOM;
    let mut rest = n;
    let mut left = least;
    while !is_spelled(rest, left) {
        let digit = (rest % base as u64) as u8;
        at -= 1;
        out[at] = glyph(ten, digit);
        rest /= base as u64;
        left = less(left, 1);
    }
    at
}

// A number in decimal.
pub fn decimal(n: u64, out: &mut [u8]) -> usize
    requires { length out.old ≡ room }
    ensures { Spells 2 (decimalOf n) result out.new }
{
    spell(n, 10, CAPITAL, 1, out)
}

// A byte as a signed number.
pub fn signed(low: u8, out: &mut [u8]) -> usize
    requires { length out.old ≡ room }
    ensures { Spells 1 (signed_of low) result out.new }
{
    if low < 128 {
        return decimal(low as u64, out);
    }
    let at = decimal((255 - low) as u64 + 1, out);
    out[at - 1] = b'-';
    at - 1
}

// A number in hexadecimal: 0x, and two capital digits at least.
pub fn hex(n: u64, out: &mut [u8]) -> usize
    requires { length out.old ≡ room }
    ensures { Spells 0 (hexOf n) result out.new }
{
    let at = spell(n, 16, CAPITAL, 2, out);
    out[at - 1] = b'x';
    out[at - 2] = b'0';
    at - 2
}

// Puts the two digits of a byte into a buffer that has room for them, from `at` on.
fn put_pair(buffer: &mut [u8], at: usize, b: u8)
    requires { at + 2 ≤ length buffer.old }
    ensures { buffer.new ≡ sets buffer.old at (pairs (b ∷ [])) }
{
    buffer[at] = glyph(CAPITAL, b / 16);
    buffer[at + 1] = glyph(CAPITAL, b % 16);
}

// Puts the two digits of each byte into a buffer that has room for them, from `at` on.
fn put_pairs(buffer: &mut [u8], at: usize, bytes: &[u8])
    requires { at + 2 * length bytes.now ≤ length buffer.old }
    ensures { buffer.new ≡ sets buffer.old at (pairs bytes.now) }
{
    for (i, b) in bytes.iter().enumerate() {
        put_pair(buffer, at + 2 * i, *b);
    }
}

// Writes a mark and the two digits of each byte at the front of a buffer, if it has room.
pub fn write_pairs(mark: &[u8], bytes: &[u8], buffer: &mut [u8]) -> Result<usize, Refusal>
    requires { length mark.now + 2 * length bytes.now < 2 ^ 64 }
    ensures { Writes (mark.now ++ pairs bytes.now) buffer.old result buffer.new }
{
    let size = mark.len() + 2 * bytes.len();
    if buffer.len() < size {
        return Err(Refusal::MoreBytes(size));
    }
    put(buffer, 0, mark);
    put_pairs(buffer, mark.len(), bytes);
    Ok(size)
}
