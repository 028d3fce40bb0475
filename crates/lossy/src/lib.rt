// Bytes shown as UTF-8 in a lent buffer: U+FFFD for each maximal subpart of what is ill-formed, and no zero byte at the end. Counterpart of Rust's
// `String::from_utf8_lossy` and `trim_end_matches('\0')`.
#![tactic(auto, using(crate::proofs::Laws::laws))]

ghost use Rattle.std.specs.Prelude.{◌≡◌, ◌+◌, ◌*◌, ◌^◌, ◌≤◌, ◌<◌, length, take, cond};
ghost use Rattle.std.proofs.lemmas.List.Edits.{sets};
ghost use Rattle.utf8.specs.Table.{cut};
ghost use Rattle.buffer.specs.Buffer.{Writes};
ghost use Rattle.lossy.specs.Lossy.{first, replaced, trim, shown};

use buffer::put;
use refusal::Refusal;
use utf8::Piece;

// How many bytes stand before the zero bytes at the end of s.
fn end_of(s: &[u8]) -> usize
    ensures { (take result s.now ≡ trim s.now) × (result ≤ length s.now) }
{
    for i in (0..s.len()).rev() {
        if s[i] != 0 {
            return i + 1;
        }
    }
    0
}

// How many bytes stand for a piece.
fn width(p: Piece) -> usize
    ensures { result ≡ cond p.well p.size 3 }
{
    if p.well {
        return p.size;
    }
    3
}

// How many bytes stand for all of s.
fn count(s: &[u8]) -> usize
    requires { 3 * length s.now < 2 ^ 64 }
    ensures { result ≡ length (replaced s.now) }
{
    let mut n = 0;
    let mut i = 0;
    while i < s.len() {
        let p = utf8::first_piece(&s[i..]);
        let size = p.size;
        n += width(p);
        i += size;
    }
    n
}

// Puts what stands for the first piece of s into `to`, from `at` on.
fn put_first(to: &mut [u8], at: usize, s: &[u8], p: Piece)
    requires { (p ≡ cut s.now) × (p.size ≤ length s.now) × (at + length (first s.now) ≤ length to.old) }
    ensures { to.new ≡ sets to.old at (first s.now) }
{
    let size = p.size;
    if p.well {
        put(to, at, &s[..size]);
        return;
    }
    to[at] = 0xef;
    to[at + 1] = 0xbf;
    to[at + 2] = 0xbd;
}

// Puts what stands for all of s into `to`.
fn put_all(to: &mut [u8], s: &[u8])
    requires { length (replaced s.now) ≤ length to.old }
    ensures { to.new ≡ sets to.old 0 (replaced s.now) }
{
    let mut n = 0;
    let mut i = 0;
    while i < s.len() {
        let rest = &s[i..];
        let p = utf8::first_piece(rest);
        let size = p.size;
        put_first(to, n, rest, p);
        n += width(p);
        i += size;
    }
}

// Writes bytes at the front of a buffer as they are shown, if it has room.
pub fn write_lossy(bytes: &[u8], buffer: &mut [u8]) -> Result<usize, Refusal>
    requires { 3 * length bytes.now < 2 ^ 64 }
    ensures { Writes (shown bytes.now) buffer.old result buffer.new }
{
    let e = end_of(bytes);
    let needed = count(&bytes[..e]);
    if buffer.len() < needed {
        return Err(Refusal::MoreBytes(needed));
    }
    put_all(buffer, &bytes[..e]);
    Ok(needed)
}
