// How often a wake-up beam stands in the middle bytes of a record, and whom it wakes: F14, F15 and BF3 of docs/RULES.md.
ghost use Rattle.std.specs.Prelude.{◌≡◌, cond, ◌&&◌, ◌<◌, ◌≤◌, ◌+◌, ◌*◌, eqb, leb, length, get_or, take, drop};
ghost use Rattle.radio.specs.Beam.{starts_with, width_of, beams_of, told_by, ordinary_target, long_target, target_of};

// Marker byte repeated throughout a wake-up beam.
pub const BEAM_MARKER: u8 = 0x55;

// Long Range tells power and node as one number: so many nodes to a step of the power.
const NODES: u16 = 4096;

// Whom a beam wakes: the node, the hash of its home id and, at Long Range, the power. Each is one more than its number, and 0 where the beam ends
// before it. No Options: these are the numbers of the flat row that C reads.
#[derive(Clone, Copy)]
pub struct BeamTarget {
    pub node: u16,
    pub hash: u16,
    pub power: u16,
}

// The width of a beam at a rate, in m middle bytes.
fn beam_width(rate: u8, m: usize) -> usize
    ensures value { result ≡ width_of rate m }
    ensures upper_bound { result ≤ m }
{
    let most = if rate == 3 { 4 } else { 3 };
    m.min(most)
}

// Do the first `width` middle bytes stand again at a place, with their marker?
fn repeats_at(middle: &[u8], at: usize, width: usize) -> bool
    requires { (at < length middle.now) × (width ≤ length middle.now) }
    ensures { result ≡ (eqb (get_or middle.now at 0) 0x55 && starts_with (take width middle.now) (drop at middle.now)) }
{
    if middle[at] != BEAM_MARKER {
        return false;
    }
    if middle.len() - at < width {
        return false;
    }
    for i in 0..width {
        if middle[i] != middle[at + i] {
            return false;
        }
    }
    true
}

// Counts how often a beam repeats in the middle bytes of a record. Each candidate repetition is compared with the first, and the
// scan goes on by one byte where it differs.
pub fn beam_count(rate: u8, middle: &[u8]) -> usize
    ensures { result ≡ beams_of rate middle.now }
{
    let width = beam_width(rate, middle.len());
    let mut count: usize = 1;
    let mut at = width;
    while at < middle.len() {
        if repeats_at(middle, at, width) {
            count += 1;
            at += width;
        } else {
            at += 1;
        }
    }
    count
}

// Does a beam repeat at all? The first repetition settles it.
pub fn is_repeated(rate: u8, middle: &[u8]) -> bool
    ensures { result ≡ leb 2 (beams_of rate middle.now) }
{
    let width = beam_width(rate, middle.len());
    let mut at = width;
    while at < middle.len() {
        if repeats_at(middle, at, width) {
            return true;
        }
        at += 1;
    }
    false
}

// A byte of a beam, as it is told.
fn byte_told(middle: &[u8], at: usize) -> u16
    ensures { result ≡ told_by at middle.now (get_or middle.now at 0) }
{
    match middle.get(at) {
        Some(byte) => u16::from(*byte) + 1,
        None => 0,
    }
}

fn ordinary_target(middle: &[u8]) -> BeamTarget
    ensures { result ≡ ordinary_target middle.now }
{
    BeamTarget {
        node: byte_told(middle, 1),
        hash: byte_told(middle, 2),
        power: 0,
    }
}

fn long_target(middle: &[u8]) -> BeamTarget
    ensures { result ≡ long_target middle.now }
{
    let hash = byte_told(middle, 3);
    if middle.len() <= 2 {
        return BeamTarget {
            node: 0,
            hash,
            power: 0,
        };
    }
    let number = u16::from_be_bytes([middle[1], middle[2]]);
    BeamTarget {
        node: number % NODES + 1,
        hash,
        power: number / NODES + 1,
    }
}

// Whom a beam of that rate wakes.
pub fn target_of(rate: u8, middle: &[u8]) -> BeamTarget
    ensures { result ≡ target_of rate middle.now }
{
    if rate == 3 {
        return long_target(middle);
    }
    ordinary_target(middle)
}
