// The requests on rates and on single records.
use crate::frames::{FRAME, put_frame, put_target, put_word, read_by};
use answer::{put_bytes, put_named, put_refusal};
use libtap::TapAnswer;
use libtap::frames::{
    TapFrame, tap_count_records, tap_parse_record, tap_record_body, tap_speed_for,
};
use numerals::numbers::read_value;
use request::{read_bytes, read_leading};
use writer::{Buffer, put};

// `rate CHANNEL REGION`
pub fn rate(words: &[u8], out: &mut Buffer, used: usize) -> Option<usize> {
    let (channel, at) = read_leading(words)?;
    let region = read_value(&words[at..])?;
    let rate = tap_speed_for(channel as usize, region as usize);
    Some(put_named(out, used, b"rate", rate as u64))
}

fn put_count(out: &mut Buffer, used: usize, count: TapAnswer) -> usize {
    if count.refusal != 0 {
        return put_refusal(out, used, count.refusal, count.value);
    }
    put_named(out, used, b"count", count.value)
}

// `count PAYLOAD`
pub fn count(words: &[u8], bytes: &mut [u8], out: &mut Buffer, used: usize) -> Option<usize> {
    let n = read_bytes(words, bytes)?;
    let count = tap_count_records(&bytes[..n]);
    Some(put_count(out, used, count))
}

fn put_body(out: &mut Buffer, used: usize, payload: &[u8], k: usize) -> usize {
    let body = tap_record_body(payload, k);
    let start = body.start as usize;
    let end = start + body.length as usize;
    let n = put(out, used, b"body ");
    put_bytes(out, n, &payload[start..end])
}

// `body K PAYLOAD`
pub fn body(words: &[u8], bytes: &mut [u8], out: &mut Buffer, used: usize) -> Option<usize> {
    let (k, at) = read_leading(words)?;
    let n = read_bytes(&words[at..], bytes)?;
    Some(put_body(out, used, &bytes[..n], k as usize))
}

// `record BODY` and `recordby FIRMWARE READING BODY`
pub fn record(
    words: &[u8],
    named: bool,
    bytes: &mut [u8],
    out: &mut Buffer,
    used: usize,
) -> Option<usize> {
    let (capture, at) = read_by(words, named)?;
    let n = read_bytes(&words[at..], bytes)?;
    let frame = tap_parse_record(&bytes[..n], capture.firmware, capture.family);
    Some(put_single(out, used, named, frame))
}

// Its start is that in the body.
fn put_single(out: &mut Buffer, used: usize, named: bool, frame: TapFrame) -> usize {
    if frame.refusal != 0 {
        return put_refusal(out, used, frame.refusal, frame.value);
    }
    let mut n = put_word(out, used, FRAME, named);
    let row = [
        frame.direction,
        frame.region,
        frame.channel,
        frame.rate,
        frame.rssi,
        frame.beams,
        frame.start,
        frame.length,
    ];
    n = put_frame(out, n, &row);
    if named {
        let target = frame.target;
        return put_target(out, n, target.node, target.hash, target.power);
    }
    n
}
