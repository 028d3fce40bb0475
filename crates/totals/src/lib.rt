// The totals of a capture: TO1 to TO5 of docs/RULES.md. One payload at a time is added to totals that the caller lends.
#![tactic(auto, using(crate::proofs::Laws::laws))]

ghost use Rattle.std.specs.Prelude.{◌≡◌, true, cond, not, [], ◌∷◌, ◌≤◌, ◌<◌, length, Ok};
ghost use Rattle.frame_text.specs.Rules.{verdict};
ghost use Rattle.radio.specs.Speed.{RateTable};
ghost use Rattle.refusal.specs.Refusal.{most_payload, number_of};
ghost use Rattle.header_rules.specs.Table.{most_numbers};
ghost use Rattle.header.specs.Decode.{decoded};
ghost use Rattle.pti.specs.Payload.{rows_of, row_of};
ghost use Rattle.pti.specs.Steps.{Within};
ghost use Rattle.totals.specs.Totals.{size, refused_counts, header_counts, beam_counts, frame_counts, within, Adds};
ghost use Rattle.totals.specs.Steps.{zeros, Room, Tallies, Lies, framed_in, body_counts, tally_rows, plus, AddsSums};

use frame::{PtiFrame, Reading, Rules, frame_of, rules_of, split_body};
use frame_text::check_frame_text;
use header::{DecodedHeader, identify_accepted};
use pti::payload::beams_number;
use radio::speed::RATES;
use records::{PayloadOffset, Span, next_body};
use refusal::{MOST_PAYLOAD, Refusal};

// How many rates there are: a key has a count for each.
pub const RATE_COUNT: usize = 4;

// The places of the totals behind the counts by key and rate.
pub const WRONG: usize = 1024;

pub const BEAMS: usize = 1025;

pub const REPEATS: usize = 1026;

pub const BYTES: usize = 1027;

// The place of a refusal's number, 5, 6 or 7, is so much further on.
pub const REFUSED: usize = 1023;

// How many totals there are.
pub const TOTALS: usize = 1031;

// The greatest total.
pub const MOST: u64 = 9223372036854775807;

fn add(sums: &mut [u64; TOTALS], at: usize, n: u16)
    requires { (at < size) × (Room 1 sums.old) }
    ensures { Tallies 1 ((at, n) ∷ []) sums.old sums.new }
{
    sums[at] += n as u64;
}

// 1 for a wrong checksum.
fn wrong_number(right: bool) -> u16
    ensures { result ≡ cond right 0 1 }
{
    if right { 0 } else { 1 }
}

fn count_heading(header: DecodedHeader, rate: u8, sums: &mut [u64; TOTALS])
    requires { (header.key < 256) × (rate < 4) × (Room 2 sums.old) }
    ensures { Tallies 2 (header_counts rate (Ok header)) sums.old sums.new }
{
    add(sums, header.key as usize * RATE_COUNT + rate as usize, 1);
    add(sums, WRONG, wrong_number(header.right));
}

fn count_refused(refusal: Refusal, sums: &mut [u64; TOTALS])
    requires { Room 1 sums.old }
    ensures { Tallies 1 (refused_counts (number_of refusal)) sums.old sums.new }
{
    let number = refusal.number() as usize;
    if number < 5 {
        return;
    }
    if 7 < number {
        return;
    }
    add(sums, REFUSED + number, 1);
}

// Counts the header of an MPDU at a rate, by an accepted text.
fn count_header(text: &[u8], mpdu: &[u8], region: u64, rate: u8, sums: &mut [u64; TOTALS])
    requires text_value { verdict text.now ≡ Ok tt }
    requires rate_bound { (rate < 4) × (Room 2 sums.old) }
    ensures { Tallies 2 (header_counts rate (decoded text.now mpdu.now region rate most_numbers)) sums.old sums.new }
{
    match identify_accepted(text, mpdu, region, rate as u64) {
        Ok(header) => count_heading(header, rate, sums),
        Err(refusal) => count_refused(refusal, sums),
    }
}

// Counts a beam that stands there so often.
fn count_beam(repeats: u16, sums: &mut [u64; TOTALS])
    requires { Room 2 sums.old }
    ensures { Tallies 2 (beam_counts repeats) sums.old sums.new }
{
    add(sums, BEAMS, 1);
    add(sums, REPEATS, repeats);
}

// Counts a frame of the payload, which starts in the body at that place of it.
fn count_frame(
    text: &[u8],
    payload: &[u8],
    region: u64,
    frame: PtiFrame,
    body: PayloadOffset,
    sums: &mut [u64; TOTALS],
)
    requires text_value { verdict text.now ≡ Ok tt }
    requires lies { Lies payload.now body.0 frame }
    requires room { Room 3 sums.old }
    ensures { Tallies 3 (frame_counts text.now region payload.now (row_of 0 body.0 frame)) sums.old sums.new }
{
    add(sums, BYTES, frame.length);
    let beams = frame.beams;
    let repeats = beams_number(beams);
    if repeats == 0 {
        let start = frame.start.in_payload(body);
        let at = start.0;
        let end = at + frame.length as usize;
        count_header(text, &payload[at..end], region, frame.rate, sums);
        return;
    }
    count_beam(repeats, sums);
}

// The frame in a body, if it holds one by these rules.
fn frame_in(rates: &[u8; 512], body: &[u8], rules: Rules) -> Option<PtiFrame>
    requires rate_table { RateTable rates.now }
    requires width_bound { (rules.width ≤ 5) × (length body.now < most_payload) }
    ensures { result ≡ framed_in rules body.now }
{
    let parts = split_body(rates, body, rules)?;
    let reading = rules.reading;
    Some(frame_of(body, reading, parts))
}

// Counts the frame in a body of the payload, if it holds one by these rules.
fn count_body(
    rates: &[u8; 512],
    text: &[u8],
    payload: &[u8],
    region: u64,
    rules: Rules,
    span: Span,
    sums: &mut [u64; TOTALS],
)
    requires rate_table { RateTable rates.now }
    requires text_value { verdict text.now ≡ Ok tt }
    requires width_bound { (rules.width ≤ 5) × (Within payload.now span) }
    requires room { Room 3 sums.old }
    ensures { Tallies 3 (body_counts rules text.now region payload.now span) sums.old sums.new }
{
    let start = span.start.0;
    let end = span.end.0;
    let Some(frame) = frame_in(rates, &payload[start..end], rules) else {
        return;
    };
    count_frame(text, payload, region, frame, span.start, sums);
}

// Counts every frame of a payload.
fn count_frames(
    rates: &[u8; 512],
    text: &[u8],
    payload: &[u8],
    region: u64,
    rules: Rules,
    sums: &mut [u64; TOTALS],
)
    requires rate_table { RateTable rates.now }
    requires text_value { verdict text.now ≡ Ok tt }
    requires width_bound { (rules.width ≤ 5) × (length payload.now ≤ most_payload) }
    requires sums_value { sums.old ≡ zeros }
    ensures { sums.new ≡ tally_rows (frame_counts text.now region payload.now) zeros (rows_of rules payload.now) }
{
    let mut at: usize = 1;
    while let Some(span) = next_body(payload, at) {
        count_body(rates, text, payload, region, rules, span, sums);
        at = span.end.0 + 2;
    }
}

// The same, with the rates lent once for all frames.
fn count_payload(text: &[u8], payload: &[u8], region: u64, rules: Rules, sums: &mut [u64; TOTALS])
    requires text_value { verdict text.now ≡ Ok tt }
    requires width_bound { (rules.width ≤ 5) × (length payload.now ≤ most_payload) }
    requires sums_value { sums.old ≡ zeros }
    ensures { sums.new ≡ tally_rows (frame_counts text.now region payload.now) zeros (rows_of rules payload.now) }
{
    count_frames(&RATES, text, payload, region, rules, sums)
}

// Would one of the totals pass the limit with these sums?
fn passes(totals: &[u64], sums: &[u64]) -> bool
    requires { (length totals.now ≡ size) × (length sums.now ≡ size) }
    ensures { result ≡ not (within (plus totals.now sums.now)) }
{
    for (i, total) in totals.iter().enumerate() {
        if MOST < *total {
            return true;
        }
        if MOST - *total < sums[i] {
            return true;
        }
    }
    false
}

// Adds the sums to the totals, which have room for them.
fn raise(totals: &mut [u64], sums: &[u64])
    requires totals_len { (length totals.old ≡ size) × (length sums.now ≡ size) }
    requires sums_value { within (plus totals.old sums.now) ≡ true }
    ensures { totals.new ≡ plus totals.old sums.now }
{
    for (i, n) in sums.iter().enumerate() {
        totals[i] += *n;
    }
}

// Adds the sums to the totals, if none of them would pass the limit; else refuses by 10.
fn add_sums(totals: &mut [u64], sums: &[u64]) -> Result<(), Refusal>
    requires { (length totals.old ≡ size) × (length sums.now ≡ size) }
    ensures { AddsSums totals.old sums.now result totals.new }
{
    if passes(&totals[..], sums) {
        return Err(Refusal::PastLimit);
    }
    raise(totals, sums);
    Ok(())
}

// Adds the frames of a payload to the totals by an accepted text, for many payloads and one text; or refusal 13, 4 or 10.
pub fn add_accepted(
    text: &[u8],
    region: u64,
    firmware: usize,
    reading: Reading,
    payload: &[u8],
    totals: &mut [u64; TOTALS],
) -> Result<(), Refusal>
    requires { verdict text.now ≡ Ok tt }
    ensures { Adds firmware reading text.now region payload.now totals.old result totals.new }
{
    let rules = rules_of(firmware, reading);
    if rules.width == 0 {
        return Err(Refusal::Firmware(firmware));
    }
    if MOST_PAYLOAD < payload.len() {
        return Err(Refusal::TooLong(payload.len()));
    }
    let mut sums = [0u64; TOTALS];
    count_payload(text, payload, region, rules, &mut sums);
    add_sums(&mut totals[..], &sums)
}

// Adds the frames of a payload, which that firmware wrote, to the totals: each frame by the text, at that region and its own rate. Refuses by 13, 1 to 4 or
// 10, and leaves the totals as they were.
pub fn add_payload(
    text: &[u8],
    region: u64,
    firmware: usize,
    reading: Reading,
    payload: &[u8],
    totals: &mut [u64; TOTALS],
) -> Result<(), Refusal>
    ensures { Adds firmware reading text.now region payload.now totals.old result totals.new }
{
    let rules = rules_of(firmware, reading);
    if rules.width == 0 {
        return Err(Refusal::Firmware(firmware));
    }
    check_frame_text(text)?;
    add_accepted(text, region, firmware, reading, payload, totals)
}
