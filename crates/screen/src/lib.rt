// Frame records for the screen, filled from the flat rows of `parse_payload`: F19 of docs/RULES.md.
#![tactic(auto, using(crate::proofs::Laws::laws))]

ghost use Rattle.std.specs.Prelude.{◌≡◌, ◌≤◌, ◌+◌, ◌*◌, drop, length};
ghost use Rattle.screen.specs.Screen.{record_of, fillable_of, Filled};
ghost use Rattle.pti.specs.Payload.{row_width};

use pti::payload::{
    BEAMS, CHANNEL, DIRECTION, HASH, LENGTH, NODE, PLACE, POWER, RATE, RECORD, REGION, ROW_WIDTH,
    RSSI, START,
};
use radio::rssi::signed;

#[repr(C)]
#[derive(Clone, Copy)]
pub struct FrameRecord {
    // 0 Rx, 1 Tx
    pub direction: u8,
    pub region: u8,
    pub channel: u8,
    pub rate: u8,
    pub rssi: i8,
    // whether there is a beam count; `beams` is 0 where there is none: C reads both fields, so no Option
    pub is_beam: bool,
    pub beams: u16,
    // the MPDU's, in the payload
    pub start: u16,
    pub length: u16,
    // its record's number, as `record_body` counts, and where that record begins
    pub number: u16,
    pub place: u16,
    // whom a beam wakes, in the second reading: each one more than its number, or 0 for none
    pub node: u16,
    pub hash: u16,
    pub power: u16,
}

// The frame record of flat row i.
pub fn record_at(rows: &[u16], i: usize) -> FrameRecord
    requires { i * row_width + row_width ≤ length rows.now }
    ensures { result ≡ record_of (drop (i * row_width) rows.now) }
{
    let at = i * ROW_WIDTH;
    FrameRecord {
        direction: (rows[at + DIRECTION] % 256) as u8,
        region: (rows[at + REGION] % 256) as u8,
        channel: (rows[at + CHANNEL] % 256) as u8,
        rate: (rows[at + RATE] % 256) as u8,
        rssi: signed((rows[at + RSSI] % 256) as u8),
        is_beam: rows[at + BEAMS] != 0,
        beams: rows[at + BEAMS],
        start: rows[at + START],
        length: rows[at + LENGTH],
        number: rows[at + RECORD],
        place: rows[at + PLACE],
        node: rows[at + NODE],
        hash: rows[at + HASH],
        power: rows[at + POWER],
    }
}

// How many records are filled: n, or none where the table has fewer records than n or there are fewer flat rows.
fn fillable(n: usize, records: usize, numbers: usize) -> usize
    ensures { result ≡ fillable_of n records numbers }
{
    if records < n {
        return 0;
    }
    if n <= numbers / ROW_WIDTH {
        return n;
    }
    0
}

// The first n records of the table, from the first n flat rows, row by row; the records past them stay as they are.
// Answers how many were filled: n, or 0 where the table or the flat rows are fewer than n, and then nothing is written.
#[unsafe(no_mangle)]
pub extern "C" fn fill_frames(frames: &mut [FrameRecord], rows: &[u16], n: usize) -> usize
    ensures { Filled rows.now n frames.old result frames.new }
{
    let m = fillable(n, frames.len(), rows.len());
    for i in 0..m {
        frames[i] = record_at(rows, i);
    }
    m
}
