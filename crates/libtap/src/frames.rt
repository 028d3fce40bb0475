// The calls on payloads and records.
ghost use Rattle.std.specs.Prelude.{◌≡◌};
ghost use Rattle.radio.specs.Speed.{rate_of};
ghost use Rattle.radio.specs.Beam.{beams_of};
ghost use Rattle.records.specs.Records.{said, said_of};
ghost use Rattle.frame.specs.Frame.{parsed_of, reading_by, target_numbers, frame_numbers};
ghost use Rattle.pti.specs.Payload.{said as saidFrames};
ghost use Rattle.libtap.specs.Answers.{answered, ToldBody, aimed, framed, told_frame, Told};

use crate::{TapAnswer, answer, refuse};
use frame::PtiFrame;
use pti::payload::{beams_number, direction_number};
use pti::{parse_payload, reading_by};
use radio::beam::BeamTarget;
use radio::rssi::byte_of;
use records::find_body;
use refusal::Refusal;

// Whom a beam wakes, as C has it: the three numbers of BF2.
#[repr(C)]
#[derive(Clone, Copy)]
pub struct TapTarget {
    pub node: u64,
    pub hash: u64,
    pub power: u64,
}

// A single record's frame as C has it: where `refusal` is 0, the eight numbers of F16, `start` in the record's body, and whom a beam wakes.
#[repr(C)]
#[derive(Clone, Copy)]
pub struct TapFrame {
    pub refusal: u64,
    pub value: u64,
    pub direction: u64,
    pub region: u64,
    pub channel: u64,
    pub rate: u64,
    pub rssi: u64,
    pub beams: u64,
    pub start: u64,
    pub length: u64,
    pub target: TapTarget,
}

// A part of the caller's bytes: where it starts in them, and its length.
#[repr(C)]
#[derive(Clone, Copy)]
pub struct TapPart {
    pub start: u64,
    pub length: u64,
}

// The rate of a channel in a PTI region: 0 is 9.6 kbit/s, 1 is 40, 2 is 100, 3 is Long Range.
pub fn tap_speed_for(channel: usize, region: usize) -> u8
    ensures { result ≡ rate_of channel region }
{
    pti::speed_for(channel, region)
}

// How often a beam repeats in the middle bytes of a record.
pub fn tap_beam_count(rate: u8, middle: &[u8]) -> usize
    ensures { result ≡ beams_of rate middle.now }
{
    pti::beam_count(rate, middle)
}

fn tell_count(count: Result<usize, Refusal>) -> TapAnswer
    ensures { result ≡ answered (said count) }
{
    match count {
        Ok(n) => answer(n as u64),
        Err(refusal) => refuse(refusal),
    }
}

// How many bodies a payload has, or refusal 4.
pub fn tap_count_records(payload: &[u8]) -> TapAnswer
    ensures { result ≡ answered (said_of payload.now) }
{
    let count = pti::count_records(payload);
    tell_count(count)
}

// Where body k of a payload lies, from 0; an empty part where there is none or the payload is too long.
pub fn tap_record_body(payload: &[u8], k: usize) -> TapPart
    ensures { ToldBody payload.now k result }
{
    let body = find_body(payload, k);
    let start = body.start.0;
    let end = body.end.0;
    TapPart {
        start: start as u64,
        length: (end - start) as u64,
    }
}

fn tell_target(target: BeamTarget) -> TapTarget
    ensures { result ≡ aimed (target_numbers target) }
{
    TapTarget {
        node: target.node as u64,
        hash: target.hash as u64,
        power: target.power as u64,
    }
}

fn tell_row(frame: PtiFrame) -> TapFrame
    ensures { result ≡ framed (frame_numbers frame) }
{
    let direction = frame.direction;
    let beams = frame.beams;
    let target = frame.target;
    TapFrame {
        refusal: 0,
        value: 0,
        direction: direction_number(direction) as u64,
        region: frame.region as u64,
        channel: frame.channel as u64,
        rate: frame.rate as u64,
        rssi: byte_of(frame.rssi) as u64,
        beams: beams_number(beams) as u64,
        start: frame.start.0 as u64,
        length: frame.length as u64,
        target: tell_target(target),
    }
}

fn tell_frame(parsed: Result<PtiFrame, Refusal>) -> TapFrame
    ensures { result ≡ told_frame parsed }
{
    match parsed {
        Ok(frame) => tell_row(frame),
        Err(refusal) => TapFrame {
            refusal: refusal.number() as u64,
            value: refusal.carried() as u64,
            direction: 0,
            region: 0,
            channel: 0,
            rate: 0,
            rssi: 0,
            beams: 0,
            start: 0,
            length: 0,
            target: TapTarget {
                node: 0,
                hash: 0,
                power: 0,
            },
        },
    }
}

// The frame of a single record's body, which that firmware wrote, with beams as a family of their own or not, or refusal 13, 4 or 9.
pub fn tap_parse_record(body: &[u8], firmware: usize, family: bool) -> TapFrame
    ensures { result ≡ told_frame (parsed_of firmware (reading_by family) body.now) }
{
    let parsed = pti::parse_record(body, firmware, reading_by(family));
    tell_frame(parsed)
}

fn tell(frames: Result<usize, Refusal>) -> TapAnswer
    ensures { result ≡ answered (saidFrames frames) }
{
    match frames {
        Ok(n) => answer(n as u64),
        Err(refusal) => refuse(refusal),
    }
}

// Every frame of a payload, which that firmware wrote, with beams as a family of their own or not, into a table, the thirteen numbers of F17, FP1 and BF2
// (docs/RULES.md) a row. Answers the rows, or refusal 13, 4 or 8.
pub fn tap_parse_payload(
    payload: &[u8],
    firmware: usize,
    family: bool,
    table: &mut [u16],
) -> TapAnswer
    ensures { Told firmware (reading_by family) payload.now table.old result table.new }
{
    let frames = parse_payload(payload, firmware, reading_by(family), table);
    tell(frames)
}
