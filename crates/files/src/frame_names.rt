// The frame text by which frames get their names.
ghost use Rattle.std.specs.Prelude.{◌≡◌, ◌≤◌, length, take};
ghost use Rattle.frame_text.specs.Rules.{verdict};
ghost use Rattle.files.specs.Accepted.{judged, Finds, Accepts};

use crate::folder::load;
use frame_text::check_frame_text;
use refusal::Refusal;
use std::rt::{Env, Files};
use writer::{STDERR_FILENO, print_number};

// How it was found.
#[derive(Clone, Copy)]
pub enum State {
    Fine,
    // There is none. That is said already, as is why one is refused.
    Missing,
    Refused(Refusal),
}

// How many bytes it has: none where it is missing or refused, and no frame has a name then.
#[derive(Clone, Copy)]
pub struct FrameText {
    pub count: usize,
    pub state: State,
}

fn say_refused(refusal: Refusal) {
    io::write_all(
        STDERR_FILENO,
        b"tap: no frame has a name, as the frame text is refused by ",
    );
    print_number(STDERR_FILENO, refusal.number() as u64);
    io::write_all(STDERR_FILENO, b" at line ");
    print_number(STDERR_FILENO, refusal.carried() as u64);
    io::write_all(STDERR_FILENO, b": 'tap check' says why\n");
}

// The frame text in the first n bytes, if it is accepted.
fn judge(text: &[u8], n: usize) -> FrameText
    requires { n ≤ length text.now }
    ensures { result ≡ judged n (verdict (take n text.now)) }
{
    match check_frame_text(&text[..n]) {
        Ok(()) => FrameText {
            count: n,
            state: State::Fine,
        },
        Err(refusal) => {
            say_refused(refusal);
            FrameText {
                count: 0,
                state: State::Refused(refusal),
            }
        }
    }
}

// The frame text of the folder that an argument names, in the lent slice.
pub fn load_frames(rt: &(impl Env + Files), folder: usize, text: &mut [u8]) -> FrameText
    ensures { Accepts text.new result.count × Finds text.new result }
{
    let Some(n) = load(rt, folder, b"frames.txt", text) else {
        return FrameText {
            count: 0,
            state: State::Missing,
        };
    };
    judge(text, n)
}
