// Standard input, read in blocks and cut into lines. What is read and not yet answered lies in a lent buffer.
ghost use Rattle.std.specs.Prelude.{◌≤◌, length};
ghost use Rattle.replay.specs.Input.{In, Empty, Finds, Fills};

use std::io::Read;
use text::find;

// The bytes that wait in the buffer, from `start` up to `end`. None of them before `seen` ends a line.
#[derive(Clone, Copy)]
pub struct Input {
    pub start: usize,
    pub seen: usize,
    pub end: usize,
    // They go on a line that was too long and is answered already.
    pub is_rest: bool,
}

#[derive(Clone, Copy)]
pub enum Found {
    // A line, from a place of the buffer up to another, and what waits behind it.
    Line(usize, usize, Input),
    // The end of a line that was too long.
    Rest(Input),
    // No line ends in what waits.
    More(Input),
}

#[derive(Clone, Copy)]
pub enum Filled {
    More(Input),
    // The line that waits is longer than the buffer.
    TooLong(Input),
    // The input ends, in the middle of a line.
    Cut,
    // The input ends, or cannot be read.
    End,
}

impl Input {
    // Nothing waits.
    pub fn empty(is_rest: bool) -> Self
        ensures { Empty result }
    {
        Input {
            start: 0,
            seen: 0,
            end: 0,
            is_rest,
        }
    }

    // The next line, if it ends in what waits.
    pub fn next_line(self, lines: &[u8]) -> Found
        requires { In lines.now self }
        ensures { Finds lines.now result }
    {
        let seen = self.seen;
        let end = self.end;
        let to = seen + find(&lines[seen..end], b'\n');
        if to == end {
            return Found::More(Input {
                start: self.start,
                seen: end,
                end,
                is_rest: self.is_rest,
            });
        }
        let behind = Input {
            start: to + 1,
            seen: to + 1,
            end,
            is_rest: false,
        };
        if self.is_rest {
            return Found::Rest(behind);
        }
        Found::Line(self.start, to, behind)
    }

    // How many bytes wait, once they are moved to the front of the buffer. None that go on a line that was too long.
    fn keep(self, lines: &mut [u8]) -> usize
        requires { In lines.old self }
        ensures { result ≤ length lines.new }
    {
        if self.is_rest {
            return 0;
        }
        let start = self.start;
        let end = self.end;
        lines.copy_within(start..end, 0);
        end - start
    }

    // Reads a block behind what waits.
    pub fn fill(self, reader: &mut impl Read, lines: &mut [u8]) -> Filled
        requires { In lines.old self }
        ensures { Fills lines.new result }
    {
        let kept = self.keep(lines);
        if kept == lines.len() {
            return Filled::TooLong(Input::empty(true));
        }
        let read = match reader.read(&mut lines[kept..]) {
            Ok(n) => n,
            Err(_) => 0,
        };
        if read != 0 {
            return Filled::More(Input {
                start: 0,
                seen: kept,
                end: kept + read,
                is_rest: self.is_rest,
            });
        }
        if kept != 0 {
            return Filled::Cut;
        }
        Filled::End
    }
}
