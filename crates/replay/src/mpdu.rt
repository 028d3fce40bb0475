// The requests on single bits and on the checksum of an MPDU.
use answer::put_named;
use libtap::headers::{TapBits, tap_check_crc, tap_read_bits};
use request::{read_bytes, read_leading, read_two};
use writer::{Buffer, put};

fn put_bits(out: &mut Buffer, used: usize, answer: TapBits) -> usize {
    if answer.is_read {
        return put_named(out, used, b"bits", answer.value);
    }
    put(out, used, b"bits -")
}

// `bits PLACE WIDTH BYTES`
pub fn bits(words: &[u8], bytes: &mut [u8], out: &mut Buffer, used: usize) -> Option<usize> {
    let (place, width, at) = read_two(words)?;
    let n = read_bytes(&words[at..], bytes)?;
    let answer = tap_read_bits(&bytes[..n], place, width);
    Some(put_bits(out, used, answer))
}

// `checksum SPEED MPDU`
pub fn checksum(words: &[u8], bytes: &mut [u8], out: &mut Buffer, used: usize) -> Option<usize> {
    let (speed, at) = read_leading(words)?;
    let n = read_bytes(&words[at..], bytes)?;
    let right = tap_check_crc(&bytes[..n], speed);
    Some(put_named(out, used, b"checksum", right as u64))
}
