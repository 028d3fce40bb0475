// The screen's call for C to link: that of `screen` of its name, with its contract.
#![tactic(auto)]

ghost use Rattle.screen.specs.Screen.{Filled};

use screen::FrameRecord;

// The first n records of the table, from the first n flat rows, row by row; the records past them stay as they are.
// Answers how many were filled: n, or 0 where the table or the flat rows are fewer than n, and then nothing is written.
#[unsafe(no_mangle)]
pub extern "C" fn fill_frames(frames: &mut [FrameRecord], rows: &[u16], n: usize) -> usize
    ensures { Filled rows.now n frames.old result frames.new }
{
    screen::fill_frames(frames, rows, n)
}
