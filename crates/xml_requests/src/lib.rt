// The requests on a frame text as XML, and on XML as a frame text.
#![tactic(auto, using(crate::proofs::Laws::laws))]

use answer::table::{BYTE, MOST_BYTES, put_written};
use libtap::xml_texts::{tap_frame_text_to_xml, tap_xml_to_frame_text};
use request::{read_bytes, read_leading};
use writer::Buffer;

// The XML of a text, or a refusal, after which nothing may have been written to the buffer.
fn answer_xml(text: &[u8], buffer: &mut [u8], out: &mut Buffer, used: usize) -> usize {
    let written = tap_frame_text_to_xml(text, buffer);
    put_written(out, used, b"xml ", written.refusal, written.value, buffer)
}

// The text that an XML says, or a refusal, the same.
fn answer_unxml(xml: &[u8], buffer: &mut [u8], out: &mut Buffer, used: usize) -> usize {
    let written = tap_xml_to_frame_text(xml, buffer);
    put_written(out, used, b"unxml ", written.refusal, written.value, buffer)
}

// One of the two.
fn answer_turned(
    is_xml: bool,
    bytes: &[u8],
    buffer: &mut [u8],
    out: &mut Buffer,
    used: usize,
) -> usize {
    if is_xml {
        return answer_unxml(bytes, buffer, out, used);
    }
    answer_xml(bytes, buffer, out, used)
}

// `xml CAP TEXT`, and where the bytes are XML, `unxml CAP XML`
pub fn turned(
    words: &[u8],
    is_xml: bool,
    bytes: &mut [u8],
    out: &mut Buffer,
    used: usize,
) -> Option<usize> {
    let (cap, at) = read_leading(words)?;
    if MOST_BYTES < cap {
        return None;
    }
    let n = read_bytes(&words[at..], bytes)?;
    let room = cap as usize;
    let mut buffer = [BYTE; 196608];
    Some(answer_turned(is_xml, &bytes[..n], &mut buffer[..room], out, used))
}
