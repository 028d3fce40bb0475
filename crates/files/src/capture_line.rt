// A line of a capture, character by character: the bytes of a payload in hex, or as they are in a raw capture.
ghost use Rattle.std.specs.Prelude.{◌≡◌, ◌+◌, ◌%◌, ◌^◌, ◌<◌, slice_set};
ghost use Rattle.files.specs.CaptureLine.{
  digit_of,
  second_by,
  step_of,
  Fair,
  FairStep,
  start_of,
  state_behind,
  line_by,
  payload_by,
  ends_by,
  content_by,
};
ghost use Rattle.files.specs.declared.capture_line.State.TheVariants.{Bytes};

use std::num::{wrapping_add_u64, wrapping_add_usize};

// What the characters of a line were so far.
#[derive(Clone, Copy)]
pub enum State {
    // Bytes as they are: all of a raw capture is one line.
    Raw,
    // Whole bytes in hex, and blanks.
    Bytes,
    // The first digit of a byte was the last.
    Half(u8),
    // A comment has begun.
    Comment,
    // Something else stands in this column.
    Wrong(u64),
}

// A line so far, with its count of whole bytes and the column of its next character, from 1. Neither number ever wraps, as no
// file is that long.
#[derive(Clone, Copy)]
pub struct Line {
    pub state: State,
    pub count: usize,
    pub column: u64,
}

// What a character makes of a line: another state, or one more byte.
#[derive(Clone, Copy)]
enum Step {
    To(State),
    Byte(u8),
}

impl Line {
    pub fn new(raw: bool) -> Self
        ensures { result ≡ start_of raw }
    {
        let state = if raw { State::Raw } else { State::Bytes };
        Line {
            state,
            count: 0,
            column: 1,
        }
    }

    // Does this character end the line?
    pub fn ends(self, byte: u8) -> bool
        ensures { result ≡ ends_by self.state byte }
    {
        match self.state {
            State::Raw => false,
            State::Bytes | State::Half(_) | State::Comment | State::Wrong(_) => byte == b'\n',
        }
    }

    // How many bytes it comes to, or the column that has no hex digit where one belongs.
    pub fn content(self) -> Result<usize, u64>
        ensures { result ≡ content_by self.state self.count self.column }
    {
        match self.state {
            State::Raw | State::Bytes | State::Comment => Ok(self.count),
            State::Half(_) => Err(self.column),
            State::Wrong(column) => Err(column),
        }
    }
}

fn read_digit(byte: u8) -> Option<u8>
    ensures { result ≡ digit_of byte }
{
    match byte {
        b'0'..=b'9' => Some(byte - b'0'),
        b'A'..=b'F' => Some(byte - b'A' + 10),
        b'a'..=b'f' => Some(byte - b'a' + 10),
        _ => None,
    }
}

// Between bytes stand blanks, and `#` starts a comment.
fn step_between(byte: u8, column: u64) -> Step
    ensures { result ≡ step_of Bytes byte column }
{
    match byte {
        b' ' | b'\t' | b'\r' => Step::To(State::Bytes),
        b'#' => Step::To(State::Comment),
        _ => match read_digit(byte) {
            Some(first) => Step::To(State::Half(first)),
            None => Step::To(State::Wrong(column)),
        },
    }
}

// The second digit of a byte stands right after the first.
fn step_within(first: u8, byte: u8, column: u64) -> Step
    requires { first < 16 }
    ensures { result ≡ second_by first (digit_of byte) column }
{
    match read_digit(byte) {
        Some(second) => Step::Byte(first * 16 + second),
        None => Step::To(State::Wrong(column)),
    }
}

fn step_from(state: State, byte: u8, column: u64) -> Step
    requires { Fair state }
    ensures { (result ≡ step_of state byte column) × FairStep result }
{
    match state {
        State::Raw => Step::Byte(byte),
        State::Bytes => step_between(byte, column),
        State::Half(first) => step_within(first, byte, column),
        State::Comment => Step::To(State::Comment),
        State::Wrong(at) => Step::To(State::Wrong(at)),
    }
}

fn after_byte(state: State) -> State
    ensures { (result ≡ state_behind state) × Fair result }
{
    match state {
        State::Raw => State::Raw,
        State::Bytes | State::Half(_) | State::Comment | State::Wrong(_) => State::Bytes,
    }
}

// Lays byte n of a payload into the slice, if that has room. Returns the count of bytes now.
fn store(payload: &mut [u8], n: usize, byte: u8) -> usize
    ensures { (result ≡ (n + 1) % 2 ^ 64) × (payload.new ≡ slice_set payload.old n byte) }
{
    if n < payload.len() {
        payload[n] = byte;
    }
    wrapping_add_usize(n, 1)
}

// The line with one more character. A byte that this makes whole goes into the payload.
pub fn take_character(line: Line, byte: u8, payload: &mut [u8]) -> Line
    requires { Fair line.state }
    ensures value { (result ≡ line_by (step_of line.state byte line.column) line) × Fair result.state }
    ensures payload_after { payload.new ≡ payload_by (step_of line.state byte line.column) line.count payload.old }
{
    let state = line.state;
    let column = wrapping_add_u64(line.column, 1);
    match step_from(state, byte, line.column) {
        Step::To(next) => Line {
            state: next,
            count: line.count,
            column,
        },
        Step::Byte(whole) => Line {
            state: after_byte(state),
            count: store(payload, line.count, whole),
            column,
        },
    }
}
