// The frame in a record's body: F7 to F12, F16, FV1, FV2, BF1 and BF2 of docs/RULES.md.
#![tactic(auto, using(crate::proofs::Laws::laws))]

ghost use Rattle.std.specs.Prelude.{◌≡◌, ◌||◌, ◌≤◌, ◌<◌, ◌%◌, ◌^◌, leb, ltb, length, Some, MatchOption};
ghost use Rattle.refusal.specs.Refusal.{most_payload};
ghost use Rattle.radio.specs.Speed.{RateTable};
ghost use Rattle.radio.specs.Beam.{beams_of, no_target};
ghost use Rattle.frame.specs.Frame.{header_of, trailer_of, direction_of, success_of, region_bits, rules_of, reading_by, fields_of, is_beam, holds};
ghost use Rattle.frame.specs.Frame.{mpdu_of, beams_in, target_in, Parses};
ghost use Rattle.frame.specs.Steps.{layout_of, parts_of, split_of, Inside, framed_by};

use radio::beam::{BEAM_MARKER, BeamTarget, beam_count, is_repeated, target_of};
use radio::rssi::signed;
use radio::speed::{RATES, rate_in};
use records::BodyOffset;
use refusal::{MOST_FRAME, Refusal};

// Hardware start tags, the header's last byte, and success tags, the trailer's first.
const HW_RX_START: u8 = 0xF8;

const HW_TX_START: u8 = 0xFC;

const HW_RX_SUCCESS: u8 = 0xF9;

const HW_TX_SUCCESS: u8 = 0xFD;

// Offset of the MPDU length field within a Z-Wave header.
const LENGTH_INDEX_IN_HEADER: usize = 7;

// The fewest bytes of an ordinary frame.
const SHORTEST_MPDU: usize = 9;

// Z-Wave's number among the protocols that a trailer can name.
const ZWAVE_PROTOCOL: u8 = 6;

// Which records that start with the marker are beams: all of them, or those alone that repeat or are too short for an ordinary frame.
#[derive(Clone, Copy)]
pub enum Reading {
    Marker,
    Family,
}

// By what a record is read: how many bits of its byte say the region, and which records are beams.
#[derive(Clone, Copy)]
pub struct Rules {
    pub width: u8,
    pub reading: Reading,
}

// The direction a frame was observed in.
#[derive(Clone, Copy)]
pub enum Direction {
    Rx,
    Tx,
}

// The fields of a trailer.
#[derive(Clone, Copy)]
pub struct Trailer {
    pub tag: u8,
    pub rssi: u8,
    pub region: u8,
    pub channel: u8,
    pub protocol: u8,
}

// The parts of a body that holds a frame: the middle bytes stand from `middle` up to `end`.
#[derive(Clone, Copy)]
pub struct Parts {
    pub direction: Direction,
    pub middle: BodyOffset,
    pub end: BodyOffset,
    pub trailer: Trailer,
    pub rate: u8,
    pub beam: bool,
}

// A Z-Wave frame recovered from a record. Its MPDU stays a part of the body.
#[derive(Clone, Copy)]
pub struct PtiFrame {
    pub direction: Direction,
    // The region as PTI numbers it, which is no F code of a definition text.
    pub region: u8,
    pub channel: u8,
    // 0 is 9.6 kbit/s, 1 is 40, 2 is 100, 3 is Long Range.
    pub rate: u8,
    // 0 for a transmitted frame, which carries none.
    pub rssi: i8,
    pub beams: Option<u16>,
    pub start: BodyOffset,
    pub length: u16,
    // Nothing in the first reading, and where it is no beam.
    pub target: BeamTarget,
}

// The header's length by its version, a body's first byte, if there is such a version.
fn header_length(version: u8) -> Option<usize>
    ensures { MatchOption result (header_of version ≡ 0) (λ n. (n ≡ header_of version) × (0 < n) × (n ≤ 19)) }
{
    match version {
        2 => Some(12),
        3 => Some(19),
        _ => None,
    }
}

// The trailer's length by the start tag, if it is one.
fn trailer_length(start: u8) -> Option<usize>
    ensures { MatchOption result (trailer_of start ≡ 0) (λ n. (n ≡ trailer_of start) × (0 < n) × (n ≤ 6)) }
{
    match start {
        HW_RX_START => Some(6),
        HW_TX_START => Some(5),
        _ => None,
    }
}

fn direction_of(start: u8) -> Direction
    ensures { result ≡ direction_of start }
{
    if start == HW_RX_START {
        return Direction::Rx;
    }
    Direction::Tx
}

// The tag that says that a transfer succeeded.
fn success_tag(direction: Direction) -> u8
    ensures { result ≡ success_of direction }
{
    match direction {
        Direction::Rx => HW_RX_SUCCESS,
        Direction::Tx => HW_TX_SUCCESS,
    }
}

// How many bits of its byte say the region, by the firmware that wrote the record; 0 for a firmware that there isn't. No Option: other crates
// read this number, and its promise to them stays.
pub fn region_bits(firmware: usize) -> u8
    ensures value { result ≡ region_bits firmware }
    ensures upper_bound { result ≤ 5 }
{
    if firmware == 2 {
        return 4;
    }
    if firmware == 3 {
        return 5;
    }
    0
}

// The rules for what a firmware wrote, by a reading.
pub fn rules_of(firmware: usize, reading: Reading) -> Rules
    ensures value { result ≡ rules_of firmware reading }
    ensures width_bound { result.width ≤ 5 }
{
    Rules {
        width: region_bits(firmware),
        reading,
    }
}

// The reading in which beams are a family of their own, or the first.
pub fn reading_by(family: bool) -> Reading
    ensures { result ≡ reading_by family }
{
    if family {
        return Reading::Family;
    }
    Reading::Marker
}

// The number that the low bits of a byte say.
fn low_bits(byte: u8, width: u8) -> u8
    requires { width ≤ 5 }
    ensures { result ≡ byte % 2 ^ width }
{
    byte % (1 << width)
}

// The fields of a trailer whose region has so many bits. A transmitted frame's lacks the RSSI.
fn read_trailer(direction: Direction, trailer: &[u8], width: u8) -> Trailer
    requires in_bounds { 5 ≤ length trailer.now }
    requires width_bound { width ≤ 5 }
    ensures { result ≡ fields_of width direction trailer.now }
{
    match direction {
        Direction::Rx => Trailer {
            tag: trailer[0],
            rssi: trailer[1],
            region: low_bits(trailer[2], width),
            channel: trailer[3] % 16,
            protocol: trailer[4] % 16,
        },
        Direction::Tx => Trailer {
            tag: trailer[0],
            rssi: 0,
            region: low_bits(trailer[1], width),
            channel: trailer[2] % 16,
            protocol: trailer[3] % 16,
        },
    }
}

// Are middle bytes that start with the marker a beam, and no frame of a network whose home id starts so?
fn is_family(rate: u8, middle: &[u8]) -> bool
    ensures { result ≡ (leb 2 (beams_of rate middle.now) || ltb (length middle.now) 9) }
{
    if middle.len() < SHORTEST_MPDU {
        return true;
    }
    is_repeated(rate, middle)
}

// Are the middle bytes a beam?
fn is_beam(reading: Reading, rate: u8, middle: &[u8]) -> bool
    requires { 0 < length middle.now }
    ensures { result ≡ is_beam reading rate middle.now }
{
    if middle[0] != BEAM_MARKER {
        return false;
    }
    match reading {
        Reading::Marker => true,
        Reading::Family => is_family(rate, middle),
    }
}

// Only a successful transfer carries a valid frame, but for a beam; and it must be Z-Wave.
fn is_whole(parts: Parts) -> bool
    ensures { result ≡ holds parts.direction parts.beam parts.trailer }
{
    if parts.trailer.protocol != ZWAVE_PROTOCOL {
        return false;
    }
    if parts.beam {
        return true;
    }
    let direction = parts.direction;
    parts.trailer.tag == success_tag(direction)
}

// Where the header ends and the trailer starts.
fn lay_out(body: &[u8]) -> Option<(BodyOffset, BodyOffset)>
    ensures { result ≡ layout_of body.now }
{
    let header = header_length(*body.first()?)?;
    let trailer = trailer_length(*body.get(header - 1)?)?;
    if body.len() <= header + trailer {
        return None;
    }
    Some((BodyOffset(header), BodyOffset(body.len() - trailer)))
}

// The parts of a body whose middle bytes stand from `middle` up to `end`.
fn read_parts(
    rates: &[u8; 512],
    body: &[u8],
    rules: Rules,
    middle: BodyOffset,
    end: BodyOffset,
) -> Parts
    requires rate_table { RateTable rates.now }
    requires width_bound { rules.width ≤ 5 }
    requires body_value { layout_of body.now ≡ Some (middle, end) }
    ensures { result ≡ parts_of rules body.now }
{
    let header = middle.0;
    let tail = end.0;
    let direction = direction_of(body[header - 1]);
    let trailer = read_trailer(direction, &body[tail..], rules.width);
    let rate = rate_in(rates, trailer.channel as usize, trailer.region as usize);
    let reading = rules.reading;
    Parts {
        direction,
        middle,
        end,
        trailer,
        rate,
        beam: is_beam(reading, rate, &body[header..tail]),
    }
}

// The parts of a body whose middle bytes stand from `middle` up to `end`, if it holds a frame by these rules.
fn split_between(
    rates: &[u8; 512],
    body: &[u8],
    rules: Rules,
    middle: BodyOffset,
    end: BodyOffset,
) -> Option<Parts>
    requires rate_table { RateTable rates.now }
    requires width_bound { rules.width ≤ 5 }
    requires body_value { layout_of body.now ≡ Some (middle, end) }
    ensures { result ≡ split_of rules body.now }
{
    let parts = read_parts(rates, body, rules, middle, end);
    if is_whole(parts) {
        return Some(parts);
    }
    None
}

// The parts of a body, if it holds a frame by these rules.
pub fn split_body(rates: &[u8; 512], body: &[u8], rules: Rules) -> Option<Parts>
    requires rate_table { RateTable rates.now }
    requires width_bound { rules.width ≤ 5 }
    ensures { result ≡ split_of rules body.now }
{
    let (middle, end) = lay_out(body)?;
    split_between(rates, body, rules, middle, end)
}

// The MPDU's length: what its header declares, where that is there and fits; else all middle bytes, and so for a beam.
fn mpdu_length(beam: bool, middle: &[u8]) -> usize
    ensures value { result ≡ mpdu_of beam middle.now }
    ensures upper_bound { result ≤ length middle.now }
{
    let m = middle.len();
    if m <= LENGTH_INDEX_IN_HEADER {
        return m;
    }
    if beam {
        return m;
    }
    let l = usize::from(middle[LENGTH_INDEX_IN_HEADER]);
    if l <= m { l } else { m }
}

// The repetitions of a beam.
fn beams_in(beam: bool, rate: u8, middle: &[u8]) -> Option<u16>
    requires { length middle.now < most_payload }
    ensures { result ≡ beams_in beam rate middle.now }
{
    if beam {
        return Some(beam_count(rate, middle) as u16);
    }
    None
}

fn no_target() -> BeamTarget
    ensures { result ≡ no_target }
{
    BeamTarget {
        node: 0,
        hash: 0,
        power: 0,
    }
}

// Whom a beam wakes, which the second reading alone looks for.
fn target_in(reading: Reading, beam: bool, rate: u8, middle: &[u8]) -> BeamTarget
    ensures { result ≡ target_in reading beam rate middle.now }
{
    let Reading::Family = reading else {
        return no_target();
    };
    if beam {
        return target_of(rate, middle);
    }
    no_target()
}

// The frame of a body, given its parts.
pub fn frame_of(body: &[u8], reading: Reading, parts: Parts) -> PtiFrame
    requires inside { Inside body.now parts }
    requires body_len_bound { length body.now < most_payload }
    ensures { result ≡ framed_by reading body.now parts }
{
    let start = parts.middle;
    let at = start.0;
    let end = parts.end.0;
    let middle = &body[at..end];
    let direction = parts.direction;
    let trailer = parts.trailer;
    let rate = parts.rate;
    let beam = parts.beam;
    PtiFrame {
        direction,
        region: trailer.region,
        channel: trailer.channel,
        rate,
        rssi: signed(trailer.rssi),
        beams: beams_in(beam, rate, middle),
        start,
        length: mpdu_length(beam, middle) as u16,
        target: target_in(reading, beam, rate, middle),
    }
}

// The frame of a single record's body, which that firmware wrote, by that reading of beams, or refusal 13, 4 or 9.
pub fn parse_record(body: &[u8], firmware: usize, reading: Reading) -> Result<PtiFrame, Refusal>
    ensures { Parses firmware reading body.now result }
{
    let rules = rules_of(firmware, reading);
    if rules.width == 0 {
        return Err(Refusal::Firmware(firmware));
    }
    if MOST_FRAME < body.len() {
        return Err(Refusal::TooLong(body.len()));
    }
    let parts = split_body(&RATES, body, rules).ok_or(Refusal::NotAFrame)?;
    Ok(frame_of(body, reading, parts))
}
