// What was shown of a capture so far, and what stands below it at the end.
use files::options::Options;
use frame_line::mpdu_columns::Look;
use output::outcome::{fail, fail_capture, fail_file};
use output::refusals::put_payload_reason;
use refusal::Refusal;
use std::io::Error;
use std::num::wrapping_add_u64;
use writer::{Buffer, STDERR_FILENO, STDOUT_FILENO, print_number, put, put_number};

// What was wrong with a capture that was read.
#[derive(Clone, Copy)]
pub enum Fault {
    // The first refusal, of the frame text or of a payload.
    Refused(Refusal),
    // A file of the definitions is missing.
    Unnamed,
    // A line was passed over.
    Passed,
    // A line and a column of what is no capture.
    NoCapture(u64, u64),
    Unreadable,
}

// What was shown so far.
#[derive(Clone, Copy)]
pub struct Sheet {
    // How many bytes have gathered in the buffer.
    pub at: usize,
    pub frames: u64,
    pub beams: u64,
    pub payloads: u64,
    pub verdict: Result<(), Fault>,
    // The firmware that wrote the capture.
    pub firmware: usize,
    // Are beams a family of their own?
    pub family: bool,
    // In colour?
    pub colour: bool,
    // The folder of the definitions, 0 where none is named.
    pub folder: usize,
    // Does standard error say how far it is?
    pub progress: bool,
    // Are offsets of command texts by position?
    pub by_position: bool,
    // Does a line say where its frame's record stands?
    pub records: bool,
}

impl Sheet {
    pub fn new(options: Options) -> Self {
        Sheet {
            at: 0,
            frames: 0,
            beams: 0,
            payloads: 0,
            verdict: Ok(()),
            firmware: options.firmware,
            family: options.family,
            colour: options.colour,
            folder: options.folder,
            progress: options.progress,
            records: options.records,
            by_position: options.by_position,
        }
    }

    // How the lines are shown.
    pub fn look(self) -> Look {
        Look {
            colour: self.colour,
            folder: self.folder,
            by_position: self.by_position,
        }
    }

    pub fn gathered(mut self, at: usize) -> Self {
        self.at = at;
        self
    }

    // One more payload.
    pub fn with_payload(mut self) -> Self {
        self.payloads = wrapping_add_u64(self.payloads, 1);
        self
    }

    // One more frame, a beam or not.
    pub fn with_frame(mut self, is_beam: bool) -> Self {
        self.frames = wrapping_add_u64(self.frames, 1);
        if is_beam {
            self.beams = wrapping_add_u64(self.beams, 1);
        }
        self
    }

    // The same, with this as what was wrong.
    pub fn failed(mut self, fault: Fault) -> Self {
        self.verdict = Err(fault);
        self
    }

    // The first refusal is the verdict, unless something else was wrong.
    pub fn refused(mut self, refusal: Refusal) -> Self {
        self.verdict = self.verdict.and(Err(Fault::Refused(refusal)));
        self
    }
}

// How far it is, every 1,000 frames.
pub fn tell_progress(sheet: Sheet) {
    if sheet.progress && sheet.frames % 1000 == 0 {
        io::write_all(STDERR_FILENO, b"\r");
        print_number(STDERR_FILENO, sheet.frames);
        io::write_all(STDERR_FILENO, b" frames");
    }
}

// The line of the last such count ends.
fn end_progress(sheet: Sheet) {
    if sheet.progress && 1000 <= sheet.frames {
        io::write_all(STDERR_FILENO, b"\n");
    }
}

// What is said of the payload at hand.
fn put_note(out: &mut Buffer, sheet: Sheet, what: &[u8]) -> usize {
    let mut at = put(out, sheet.at, b"payload ");
    at = put_number(out, at, sheet.payloads);
    put(out, at, what)
}

pub fn put_empty(out: &mut Buffer, sheet: Sheet) -> Sheet {
    let at = put_note(out, sheet, b" holds no frame\n");
    sheet.gathered(at)
}

pub fn put_refused(refusal: Refusal, out: &mut Buffer, sheet: Sheet) -> Sheet {
    let mut at = put_note(out, sheet, b" is refused by ");
    at = put_payload_reason(out, at, refusal);
    at = put(out, at, b"\n");
    sheet.gathered(at).refused(refusal)
}

// What is said of a line that is passed over.
fn put_line(line: u64, column: u64, out: &mut Buffer, at: usize) -> usize {
    let mut place = put(out, at, b"line ");
    place = put_number(out, place, line);
    place = put(
        out,
        place,
        b" is passed over: there is no hex digit at column ",
    );
    put_number(out, place, column)
}

// A line that is passed over.
pub fn put_passed(line: u64, column: u64, out: &mut Buffer, sheet: Sheet) -> Sheet {
    let mut at = put_line(line, column, out, sheet.at);
    at = put(out, at, b"\n");
    sheet.gathered(at).failed(Fault::Passed)
}

// A count and what it counts.
fn print_count(n: u64, what: &[u8]) {
    print_number(STDOUT_FILENO, n);
    io::write_all(STDOUT_FILENO, what);
    if n != 1 {
        io::write_all(STDOUT_FILENO, b"s");
    }
}

// `12 frames (2 beams) in 3 payloads`: a beam is a frame too.
fn print_summary(sheet: Sheet) {
    print_count(sheet.frames, b" frame");
    io::write_all(STDOUT_FILENO, b" (");
    print_count(sheet.beams, b" beam");
    io::write_all(STDOUT_FILENO, b") in ");
    print_count(sheet.payloads, b" payload");
    io::write_all(STDOUT_FILENO, b"\n");
}

// What stands below the table, with the last line of the output; where the capture can't be read on, the error says why.
pub fn print_end(name: &[u8], sheet: Sheet, error: Error) {
    end_progress(sheet);
    match sheet.verdict {
        Ok(()) => {
            print_summary(sheet);
            output::outcome::succeed();
        }
        Err(Fault::Refused(refusal)) => {
            print_summary(sheet);
            output::outcome::refuse(refusal);
        }
        Err(Fault::Passed) => {
            print_summary(sheet);
            fail(b"tap: not every line is hex text: those that are not were passed over\n");
        }
        Err(Fault::Unnamed) => {
            print_summary(sheet);
            fail(b"");
        }
        Err(Fault::NoCapture(line, column)) => fail_capture(name, line, column),
        Err(Fault::Unreadable) => fail_file(name, error),
    }
}
