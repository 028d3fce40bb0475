// The page of coverage: a line for each H, P and E line of a frame text and for each refusal, with its count.
use coverage::{COUNTS, ENTRY, PARAM, REFUSED};
use output::refusals::put_name;
use readers::line_fields::field_of;
use readers::lines::{line, next_line};
use refusal::Refusal;
use std::num::{wrapping_add_u64, wrapping_add_usize};
use writer::{Buffer, put, put_byte, put_marked, put_number, put_right, put_spaces};

// The width of the column of counts.
const WIDTH: usize = 10;

// The most E lines of a D line.
const OF_A_SET: usize = 64;

// The refusals that have a count.
pub const REFUSALS: [Refusal; 3] = [
    Refusal::TooShort(0),
    Refusal::NoBase(0),
    Refusal::NoCandidate,
];

// Where the counts stand of the next H, P and E line, and of the first E line below the next D line.
#[derive(Clone, Copy)]
pub struct Walk {
    header: usize,
    param: usize,
    entry: usize,
    set: usize,
}

impl Walk {
    pub fn new() -> Self {
        Walk {
            header: 0,
            param: PARAM,
            entry: ENTRY,
            set: ENTRY,
        }
    }

    // Behind a line of this kind.
    pub fn behind(mut self, kind: u8) -> Self {
        match kind {
            b'H' => {
                self.header = wrapping_add_usize(self.header, 1);
            }
            b'P' => {
                self.param = wrapping_add_usize(self.param, 1);
            }
            b'E' => {
                self.entry = wrapping_add_usize(self.entry, 1);
            }
            b'D' => {
                self.entry = self.set;
                self.set = wrapping_add_usize(self.set, OF_A_SET);
            }
            _ => {}
        }
        self
    }

    // The count of the next line of this kind; None where lines of that kind have none.
    pub fn count(self, counts: &[u64; COUNTS], kind: u8) -> Option<u64> {
        let at = match kind {
            b'H' => self.header,
            b'P' => self.param,
            b'E' => self.entry,
            _ => return None,
        };
        counts.get(at).copied()
    }
}

// A count at the right of its column.
pub fn put_count(out: &mut Buffer, at: usize, n: u64) -> usize {
    let place = if n == 0 {
        put_right(out, at, b"never", WIDTH)
    } else {
        put_marked(out, at, b"", n, WIDTH)
    };
    put(out, place, b"  ")
}

// Two spaces for each level of a P line, whose digit the field is.
fn put_level(out: &mut Buffer, at: usize, field: &[u8]) -> usize {
    let Some(&digit) = field.first() else {
        return at;
    };
    let mut place = at;
    for _ in b'0'..digit {
        place = put(out, place, b"  ");
    }
    place
}

// A kind of frame: its name and its key.
pub fn put_header(out: &mut Buffer, at: usize, row: &[u8]) -> usize {
    let mut place = put(out, at, field_of(row, 4));
    place = put(out, place, b", key ");
    put(out, place, field_of(row, 1))
}

// What the line of an owner of P or E lines is called.
pub fn put_owner(out: &mut Buffer, at: usize, row: &[u8]) -> usize {
    let Some(&kind) = row.first() else {
        return at;
    };
    match kind {
        b'B' => {
            let place = put(out, at, b"base header ");
            put(out, place, field_of(row, 1))
        }
        b'H' => put_header(out, at, row),
        _ => put(out, at, field_of(row, 1)),
    }
}

// A line of the text with its count; a base header and a set have none.
fn put_line(out: &mut Buffer, at: usize, kind: u8, row: &[u8], n: u64) -> usize {
    match kind {
        b'B' | b'D' => {
            let mut place = put_spaces(out, at, WIDTH + 2);
            place = put_owner(out, place, row);
            put_byte(out, place, b'\n')
        }
        b'H' => {
            let mut place = put_count(out, at, n);
            place = put_header(out, place, row);
            put_byte(out, place, b'\n')
        }
        b'P' => {
            let mut place = put_count(out, at, n);
            place = put(out, place, b"  ");
            place = put_level(out, place, field_of(row, 1));
            place = put(out, place, field_of(row, 5));
            put_byte(out, place, b'\n')
        }
        b'E' => {
            let mut place = put_count(out, at, n);
            place = put(out, place, b"  ");
            place = put(out, place, field_of(row, 1));
            place = put_byte(out, place, b' ');
            place = put(out, place, field_of(row, 2));
            put_byte(out, place, b'\n')
        }
        _ => at,
    }
}

// The refusal of a number from 5 to 7.
fn refusal_of(number: usize) -> Refusal {
    match number {
        5 => Refusal::TooShort(0),
        6 => Refusal::NoBase(0),
        _ => Refusal::NoCandidate,
    }
}

// The line of a refusal.
pub fn put_refusal(out: &mut Buffer, at: usize, number: usize, n: u64) -> usize {
    let refusal = refusal_of(number);
    let mut place = put_count(out, at, n);
    place = put(out, place, b"refused by ");
    place = put_number(out, place, refusal.number() as u64);
    place = put(out, place, b": ");
    place = put_name(out, place, refusal);
    put_byte(out, place, b'\n')
}

pub fn refusal_count(counts: &[u64; COUNTS], number: usize) -> u64 {
    let at = wrapping_add_usize(REFUSED, number);
    counts.get(at).copied().unwrap_or(0)
}

// Every line of the text that has a count, and the refusals.
pub fn put_lines(text: &[u8], counts: &[u64; COUNTS], out: &mut Buffer, before: usize) -> usize {
    let mut place = before;
    let mut walk = Walk::new();
    let mut at: usize = 0;
    while at < text.len() {
        let kind = text[at];
        let n = walk.count(counts, kind).unwrap_or(0);
        place = put_line(out, place, kind, line(text, at), n);
        walk = walk.behind(kind);
        at = next_line(text, at);
    }
    for refusal in REFUSALS {
        let number = refusal.number() as usize;
        place = put_refusal(out, place, number, refusal_count(counts, number));
    }
    place
}

// How many there are of a kind, and how many of them were tried.
#[derive(Clone, Copy)]
pub struct Tried {
    pub all: u64,
    pub tried: u64,
}

impl Tried {
    fn new() -> Self {
        Tried { all: 0, tried: 0 }
    }

    // With one more, which occurred so often.
    fn with(mut self, n: u64) -> Self {
        self.all = wrapping_add_u64(self.all, 1);
        if n != 0 {
            self.tried = wrapping_add_u64(self.tried, 1);
        }
        self
    }
}

fn tried_lines(text: &[u8], counts: &[u64; COUNTS], kind: u8) -> Tried {
    let mut all = Tried::new();
    let mut walk = Walk::new();
    let mut at: usize = 0;
    while at < text.len() {
        let here = text[at];
        if here == kind {
            all = all.with(walk.count(counts, kind).unwrap_or(0));
        }
        walk = walk.behind(here);
        at = next_line(text, at);
    }
    all
}

fn tried_refusals(counts: &[u64; COUNTS]) -> Tried {
    let mut all = Tried::new();
    for refusal in REFUSALS {
        all = all.with(refusal_count(counts, refusal.number() as usize));
    }
    all
}

fn put_tried(out: &mut Buffer, at: usize, tried: Tried, what: &[u8]) -> usize {
    let mut place = put_marked(out, at, b"", tried.tried, WIDTH);
    place = put(out, place, b" of ");
    place = put_number(out, place, tried.all);
    place = put_byte(out, place, b' ');
    place = put(out, place, what);
    put(out, place, b" tried\n")
}

// How much of the text was tried.
pub fn put_sums(text: &[u8], counts: &[u64; COUNTS], out: &mut Buffer, before: usize) -> usize {
    let mut at = put_tried(out, before, tried_lines(text, counts, b'H'), b"headers");
    at = put_tried(out, at, tried_lines(text, counts, b'P'), b"fields");
    at = put_tried(out, at, tried_lines(text, counts, b'E'), b"symbols");
    put_tried(out, at, tried_refusals(counts), b"refusals")
}
