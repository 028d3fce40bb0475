// The request on a listing.
#![tactic(auto, using(crate::proofs::Laws::laws))]

ghost use Rattle.std.specs.Prelude.{◌-◌, ◌≤◌, length};

use answer::{put_named, put_refusal};
use libtap::TapAnswer;
use libtap::listings::tap_judge_listing;
use request::{read_both, read_bytes, read_two};
use text::find;
use writer::{Buffer, put};

// A request: the region and the speed, where the text ends, and behind it where the MPDU and the listing end.
#[derive(Clone, Copy)]
struct Asked {
    region: u64,
    speed: u64,
    text: usize,
    mpdu: usize,
    listing: usize,
}

// Yes, the line that differs, or a refusal.
fn put_judgement(out: &mut Buffer, used: usize, judgement: TapAnswer) -> usize {
    if judgement.refusal != 0 {
        return put_refusal(out, used, judgement.refusal, judgement.value);
    }
    if judgement.value != 0 {
        return put_named(out, used, b"differs", judgement.value);
    }
    put(out, used, b"yes")
}

fn judge(bytes: &[u8], asked: Asked, out: &mut Buffer, used: usize) -> usize
    requires { (asked.text ≤ length bytes.now) × (asked.mpdu ≤ asked.listing) × (asked.listing ≤ length bytes.now - asked.text) }
{
    let n = asked.text;
    let m = asked.mpdu;
    let e = asked.listing;
    let behind = &bytes[n..];
    let judgement = tap_judge_listing(
        &bytes[..n],
        &behind[..m],
        asked.region,
        asked.speed,
        &behind[m..e],
    );
    put_judgement(out, used, judgement)
}

// The text's word, then those of the MPDU and the listing.
fn judge_words(
    words: &[u8],
    region: u64,
    speed: u64,
    bytes: &mut [u8],
    out: &mut Buffer,
    used: usize,
) -> Option<usize> {
    let e = find(words, b' ');
    if e == words.len() {
        return None;
    }
    let n = read_bytes(&words[..e], bytes)?;
    let (mpdu, listing) = read_both(&words[e + 1..], &mut bytes[n..])?;
    let asked = Asked {
        region,
        speed,
        text: n,
        mpdu,
        listing,
    };
    Some(judge(bytes, asked, out, used))
}

// `listing REGION SPEED TEXT MPDU LISTING`
pub fn listing(words: &[u8], bytes: &mut [u8], out: &mut Buffer, used: usize) -> Option<usize> {
    let (region, speed, at) = read_two(words)?;
    judge_words(&words[at..], region, speed, bytes, out, used)
}
