// The requests on definition texts.
use answer::put_refusal;
use answer::table::{BYTE, MOST_BYTES, put_written};
use libtap::TapAnswer;
use libtap::texts::{tap_check_command_text, tap_check_frame_text, tap_tidy_command_text};
use request::{read_bytes, read_leading};
use writer::{Buffer, put};

fn put_verdict(out: &mut Buffer, used: usize, verdict: TapAnswer) -> usize {
    if verdict.refusal != 0 {
        return put_refusal(out, used, verdict.refusal, verdict.value);
    }
    put(out, used, b"accepted")
}

// `frametext TEXT`
pub fn frametext(words: &[u8], bytes: &mut [u8], out: &mut Buffer, used: usize) -> Option<usize> {
    let n = read_bytes(words, bytes)?;
    let verdict = tap_check_frame_text(&bytes[..n]);
    Some(put_verdict(out, used, verdict))
}

// `commandtext TEXT`
pub fn commandtext(words: &[u8], bytes: &mut [u8], out: &mut Buffer, used: usize) -> Option<usize> {
    let n = read_bytes(words, bytes)?;
    let verdict = tap_check_command_text(&bytes[..n]);
    Some(put_verdict(out, used, verdict))
}

// The tidied text, or a refusal, after which nothing may have been written to the buffer.
fn answer_tidy(text: &[u8], buffer: &mut [u8], out: &mut Buffer, used: usize) -> usize {
    let tidied = tap_tidy_command_text(text, buffer);
    put_written(out, used, b"tidy ", tidied.refusal, tidied.value, buffer)
}

// `tidy CAP TEXT`
pub fn tidy(words: &[u8], bytes: &mut [u8], out: &mut Buffer, used: usize) -> Option<usize> {
    let (cap, at) = read_leading(words)?;
    if MOST_BYTES < cap {
        return None;
    }
    let n = read_bytes(&words[at..], bytes)?;
    let room = cap as usize;
    let mut buffer = [BYTE; 196608];
    Some(answer_tidy(&bytes[..n], &mut buffer[..room], out, used))
}
