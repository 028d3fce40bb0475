// Every frame of a payload, as rows of a lent table.
ghost use Rattle.std.specs.Prelude.{◌≡◌, cond, ◌+◌, ◌*◌, ◌≤◌, ◌<◌, length};
ghost use Rattle.refusal.specs.Refusal.{most_payload};
ghost use Rattle.radio.specs.Speed.{RateTable};
ghost use Rattle.records.specs.Steps.{Leads};
ghost use Rattle.frame.specs.Frame.{is_frame, direction_number, beams_number};
ghost use Rattle.pti.specs.Payload.{row_width, row_of, rows_of, Parses};
ghost use Rattle.pti.specs.Steps.{Low, Within, Needs, WritesRow, Writes, Lays, ParsesBy};

use frame::{Direction, PtiFrame, Reading, Rules, frame_of, rules_of, split_body};
use radio::rssi::byte_of;
use radio::speed::RATES;
use records::{PayloadOffset, Span, next_body};
use refusal::{MOST_PAYLOAD, Refusal};
use rows::put_row;

// The columns of a frame's row: F17, FP1 and BF2 of docs/RULES.md.
pub const DIRECTION: usize = 0;

pub const REGION: usize = 1;

pub const CHANNEL: usize = 2;

pub const RATE: usize = 3;

pub const RSSI: usize = 4;

pub const BEAMS: usize = 5;

pub const START: usize = 6;

pub const LENGTH: usize = 7;

pub const RECORD: usize = 8;

pub const PLACE: usize = 9;

// One more than the number, or 0 for none.
pub const NODE: usize = 10;

pub const HASH: usize = 11;

pub const POWER: usize = 12;

// The numbers of a frame's row.
pub const ROW_WIDTH: usize = POWER + 1;

// The fewest bytes of a body with a frame: a header of 12, a middle byte, a trailer of 5.
const SHORTEST_BODY: usize = 18;

// The fewest bytes of its record: 4 stand around the body.
const SHORTEST: usize = SHORTEST_BODY + 4;

pub fn direction_number(direction: Direction) -> u16
    ensures { result ≡ direction_number direction }
{
    match direction {
        Direction::Rx => 0,
        Direction::Tx => 1,
    }
}

pub fn beams_number(beams: Option<u16>) -> u16
    ensures { result ≡ beams_number beams }
{
    beams.unwrap_or(0)
}

// The row of the frame of record `number`, whose body starts at a place of the payload: three bytes behind its opening bracket.
fn row_of(frame: PtiFrame, number: u16, body: PayloadOffset) -> [u16; ROW_WIDTH]
    requires { Low body.0 frame.start.0 }
    ensures { result ≡ row_of number body.0 frame }
{
    let direction = frame.direction;
    let beams = frame.beams;
    let start = frame.start.in_payload(body);
    [
        direction_number(direction),
        frame.region as u16,
        frame.channel as u16,
        frame.rate as u16,
        byte_of(frame.rssi),
        beams_number(beams),
        start.0 as u16,
        frame.length,
        number,
        (body.0 - 3) as u16,
        frame.target.node,
        frame.target.hash,
        frame.target.power,
    ]
}

// How many frames a body holds by these rules: one or none.
fn frames_in(rates: &[u8; 512], body: &[u8], rules: Rules) -> usize
    requires rate_table { RateTable rates.now }
    requires width_bound { rules.width ≤ 5 }
    ensures value { result ≡ cond (is_frame rules body.now) 1 0 }
    ensures upper_bound { result ≤ 1 }
{
    match split_body(rates, body, rules) {
        Some(_) => 1,
        None => 0,
    }
}

fn count_frames(rates: &[u8; 512], payload: &[u8], rules: Rules) -> usize
    requires rate_table { RateTable rates.now }
    requires width_bound { rules.width ≤ 5 }
    ensures { result ≡ length (rows_of rules payload.now) }
{
    let mut count: usize = 0;
    let mut at: usize = 1;
    while let Some(span) = next_body(payload, at) {
        let start = span.start.0;
        let end = span.end.0;
        count += frames_in(rates, &payload[start..end], rules);
        at = end + 2;
    }
    count
}

// How many rows a table must have room for. They are counted only if it has not room for as many as a payload of this length can have.
fn rows_needed(rates: &[u8; 512], payload: &[u8], rules: Rules, room: usize) -> usize
    requires rate_table { RateTable rates.now }
    requires width_bound { rules.width ≤ 5 }
    ensures { Needs rules payload.now room result }
{
    let most = payload.len() / SHORTEST;
    if most <= room {
        return most;
    }
    count_frames(rates, payload, rules)
}

// Writes the row of a frame of record `number` as row n. Returns the number of the next row.
fn write_row(
    frame: PtiFrame,
    number: u16,
    body: PayloadOffset,
    table: &mut [u16],
    n: usize,
) -> usize
    requires low { Low body.0 frame.start.0 }
    requires row_width_in_bounds { n * row_width ≤ length table.old }
    ensures { WritesRow frame number body.0 n table.old result table.new }
{
    let row = row_of(frame, number, body);
    put_row(table, n * ROW_WIDTH, &row);
    n + 1
}

// Writes the row of the frame of record `number`, if its body holds one, as row n. Returns the number of the next row.
fn write_frame(
    rates: &[u8; 512],
    payload: &[u8],
    rules: Rules,
    body: Span,
    number: u16,
    table: &mut [u16],
    n: usize,
) -> usize
    requires rate_table { RateTable rates.now }
    requires width_bound { rules.width ≤ 5 }
    requires within { Within payload.now body }
    requires row_width_in_bounds { n * row_width ≤ length table.old }
    ensures { Writes rules payload.now body number n table.old result table.new }
{
    let start = body.start.0;
    let end = body.end.0;
    let bytes = &payload[start..end];
    if bytes.len() < SHORTEST_BODY {
        return n;
    }
    let Some(parts) = split_body(rates, bytes, rules) else {
        return n;
    };
    let reading = rules.reading;
    write_row(
        frame_of(bytes, reading, parts),
        number,
        body.start,
        table,
        n,
    )
}

// Writes the rows of all frames, one after the other; the first body is at hand. Returns how many there are.
fn write_frames(
    rates: &[u8; 512],
    payload: &[u8],
    rules: Rules,
    first: Span,
    table: &mut [u16],
) -> usize
    requires rate_table { RateTable rates.now }
    requires width_bound { rules.width ≤ 5 }
    requires payload_len_bound { length payload.now ≤ most_payload }
    requires leads { Leads payload.now 1 first }
    requires row_width_in_bounds { length (rows_of rules payload.now) * row_width ≤ length table.old }
    ensures { Lays rules payload.now table.old result table.new }
{
    let mut n: usize = 0;
    let mut number: u16 = 0;
    let mut body = first;
    // No `while let`: a body is at hand before the first turn, and the next is looked for at a turn's end.
    loop {
        n = write_frame(rates, payload, rules, body, number, table, n);
        number += 1;
        let end = body.end.0;
        let Some(next) = next_body(payload, end + 2) else {
            return n;
        };
        body = next;
    }
}

// Every frame of a payload by these rules; the first body is at hand.
fn parse_bodies(
    rates: &[u8; 512],
    payload: &[u8],
    rules: Rules,
    first: Span,
    table: &mut [u16],
) -> Result<usize, Refusal>
    requires rate_table { RateTable rates.now }
    requires width_bound { rules.width ≤ 5 }
    requires payload_len_bound { length payload.now ≤ most_payload }
    requires leads { Leads payload.now 1 first }
    ensures { ParsesBy rules payload.now table.old result table.new }
{
    let room = table.len() / ROW_WIDTH;
    let needed = rows_needed(rates, payload, rules, room);
    if room < needed {
        return Err(Refusal::MoreRows(needed));
    }
    Ok(write_frames(rates, payload, rules, first, table))
}

// The same, with the rates lent once for all frames. A function of its own, so that a payload without a body does not lay them out.
fn parse_from(
    payload: &[u8],
    rules: Rules,
    first: Span,
    table: &mut [u16],
) -> Result<usize, Refusal>
    requires width_bound { rules.width ≤ 5 }
    requires payload_len_bound { length payload.now ≤ most_payload }
    requires leads { Leads payload.now 1 first }
    ensures { ParsesBy rules payload.now table.old result table.new }
{
    parse_bodies(&RATES, payload, rules, first, table)
}

// Every frame of a payload, which that firmware wrote, by that reading of beams, into the table, or refusal 13, 4 or 8. A refusal writes nothing, an
// answer nothing past its last row.
pub fn parse_payload(
    payload: &[u8],
    firmware: usize,
    reading: Reading,
    table: &mut [u16],
) -> Result<usize, Refusal>
    ensures { Parses firmware reading payload.now table.old result table.new }
{
    let rules = rules_of(firmware, reading);
    if rules.width == 0 {
        return Err(Refusal::Firmware(firmware));
    }
    if MOST_PAYLOAD < payload.len() {
        return Err(Refusal::TooLong(payload.len()));
    }
    let Some(first) = next_body(payload, 1) else {
        return Ok(0);
    };
    parse_from(payload, rules, first, table)
}
