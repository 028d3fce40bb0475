// The requests on the frames of a capture: on rates, on single records, and on every frame of a payload.
#![tactic(auto, using(crate::proofs::Laws::laws))]

mod frame_table;
mod frames;
mod single;

use frames::{FRAMES, FRAMETABLE};
use request::Word;
use single::{body, count, rate, record};
use writer::Buffer;

// Answers a request that starts with one of these words. Any other is a bad request.
pub fn frame_request(
    word: Word,
    words: &[u8],
    bytes: &mut [u8],
    out: &mut Buffer,
    used: usize,
) -> Option<usize> {
    match word {
        Word::Rate => rate(words, out, used),
        Word::Count => count(words, bytes, out, used),
        Word::Body => body(words, bytes, out, used),
        Word::Record => record(words, false, bytes, out, used),
        Word::Frames => frames::frames(words, FRAMES, false, bytes, out, used),
        Word::Frametable => frames::frames(words, FRAMETABLE, false, bytes, out, used),
        Word::Recordby => record(words, true, bytes, out, used),
        Word::Framesby => frames::frames(words, FRAMES, true, bytes, out, used),
        Word::Frametableby => frames::frames(words, FRAMETABLE, true, bytes, out, used),
        _ => None,
    }
}
