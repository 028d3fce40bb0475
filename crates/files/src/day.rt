// Captures whose payloads are counted one after the other: how far it is, what is said of what is not counted, and the last line.
use crate::options::Options;
use output::outcome::{fail, refuse, succeed};
use refusal::Refusal;
use std::num::wrapping_add_u64;
use writer::STDERR_FILENO;

// What was wrong with captures that were read.
#[derive(Clone, Copy)]
pub enum Fault {
    // The first refusal of a payload.
    Refused(Refusal),
    // Something could not be read. That is said already.
    Unread,
}

// How far it is: payloads so far, and whether anything was wrong.
#[derive(Clone, Copy)]
pub struct Day {
    pub payloads: u64,
    pub verdict: Result<(), Fault>,
}

impl Day {
    pub fn new() -> Self {
        Day {
            payloads: 0,
            verdict: Ok(()),
        }
    }

    pub fn with_payload(mut self) -> Self {
        self.payloads = wrapping_add_u64(self.payloads, 1);
        self
    }

    pub fn failed(mut self) -> Self {
        self.verdict = Err(Fault::Unread);
        self
    }

    // The first refusal is the verdict, unless something else was wrong.
    fn refused(mut self, refusal: Refusal) -> Self {
        self.verdict = self.verdict.and(Err(Fault::Refused(refusal)));
        self
    }
}

// How far it is, every 1,000 payloads.
pub fn tell_progress(options: Options, day: Day) {
    if options.progress && day.payloads % 1000 == 0 {
        io::write_all(STDERR_FILENO, b"\r");
        io::print_decimal(STDERR_FILENO, day.payloads);
        io::write_all(STDERR_FILENO, b" payloads\n");
    }
}

// Says on standard error that the payload at hand is not counted.
fn say_refused(refusal: Refusal, day: Day) {
    io::write_all(STDERR_FILENO, b"tap: payload ");
    io::print_decimal(STDERR_FILENO, day.payloads);
    io::write_all(STDERR_FILENO, b" is not counted: refused ");
    io::print_decimal(STDERR_FILENO, refusal.number() as u64);
    io::write_all(STDERR_FILENO, b" ");
    io::print_decimal(STDERR_FILENO, refusal.carried() as u64);
    io::write_all(STDERR_FILENO, b"\n");
}

pub fn refuse_payload(refusal: Refusal, day: Day) -> Day {
    say_refused(refusal, day);
    day.refused(refusal)
}

// A line that is no hex text.
pub fn pass_line(line: u64, column: u64, day: Day) -> Day {
    io::write_all(STDERR_FILENO, b"tap: line ");
    io::print_decimal(STDERR_FILENO, line);
    io::write_all(
        STDERR_FILENO,
        b" is passed over: there is no hex digit at column ",
    );
    io::print_decimal(STDERR_FILENO, column);
    io::write_all(STDERR_FILENO, b"\n");
    day.failed()
}

// The last line.
pub fn end(day: Day) {
    match day.verdict {
        Ok(()) => succeed(),
        Err(Fault::Refused(refusal)) => refuse(refusal),
        Err(Fault::Unread) => fail(b""),
    }
}
