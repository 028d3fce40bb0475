// What the parameters of a command are, by its definition, and what holds of their rows: each byte in one outer row or in the remainder. The types and
// numbers that the rules speak of; no code.
#![tactic(auto)]

// A bit's place in a byte, from its lowest.
#[derive(Clone, Copy)]
pub struct BitShift(pub u16);

// C2: how many entries of a list an offset can count to.
pub const MOST_ENTRIES: usize = 256;

// What an offset finds: an entry's low byte, an entry without value, or no such entry.
#[derive(Clone, Copy)]
pub enum Earlier {
    Value(u16),
    NoValue,
    NoEntry,
}

// How an offset counts in the outer list: over the entries answered so far, or by the position of a Q or G in the text.
#[derive(Clone, Copy)]
pub enum Offsets {
    Answered,
    Position,
}

// What a Q's own lines say of its length: a number of bytes, the rest, or that an entry counts it.
#[derive(Clone, Copy)]
pub enum Rule {
    Fixed(u16),
    Open,
    Counted {
        offset: u16,
        mask: u16,
        shift: BitShift,
    },
}

// How many bytes a Q wants, be they there or not.
#[derive(Clone, Copy)]
pub enum Wanted {
    Exactly(u16),
    Rest,
}

// How many bytes a Q takes, and how many more it wanted that are not there.
#[derive(Clone, Copy)]
pub struct Length {
    pub taken: usize,
    pub lacking: usize,
}

// C16: the kind of a parameter's row.
pub const PARAM_KIND: u64 = 0;

// C16: the kind of a bit child's.
pub const BIT_KIND: u64 = 1;

// C16: the kind of a repetition's.
pub const REPETITION_KIND: u64 = 2;

// C16, L3: a row of the table, ten numbers.
#[derive(Clone, Copy)]
pub struct Row {
    // One of the three kinds.
    pub kind: u64,
    // Its line in the text, the first being 1. Of a repetition it is the G's.
    pub line: u64,
    // Parent row + 1, or 0.
    pub parent: u64,
    // Its bytes in the payload, end excluded.
    pub start: u64,
    pub end: u64,
    // 1 if it has a value, and the value or 0.
    pub valued: u64,
    pub value: u64,
    // The line of the K that names its value, or 0.
    pub named: u64,
    // The number of a repetition, from 0.
    pub number: u64,
    // Bytes wanted but not there.
    pub lacking: u64,
}
