// What a line of the table says of a beam: how often it was heard, the hash of the home id and the node that it wakes, its length and, at Long
// Range, its power; a dash where there is none of them.
use crate::mask_column::WIDTH;
use crate::node_columns::{HOME, SOURCE};
use output::paint::{Hue, put_painted};
use screen::FrameRecord;
use std::num::wrapping_sub_u64;
use writer::{Buffer, put, put_hex, put_marked, put_number_left, put_right};

// How many bytes the column of the count has.
const COUNTS: usize = 20;

// The number that a field of a beam tells as one more.
pub fn number_of(field: u16) -> u64 {
    wrapping_sub_u64(field as u64, 1)
}

fn put_count(out: &mut Buffer, at: usize, beams: u16, colour: bool) -> usize {
    let mut place = put_painted(out, at, b"  Beam", 7, Hue::Name, colour);
    place = put(out, place, b"x");
    put_number_left(out, place, beams as u64, COUNTS)
}

// The two digits of a hash that is there.
pub fn put_hash_digits(out: &mut Buffer, at: usize, hash: u16) -> usize {
    put_hex(out, at, &[(number_of(hash) % 256) as u8])
}

// The hash, in the column of the home id.
fn put_hash(out: &mut Buffer, at: usize, hash: u16) -> usize {
    if hash == 0 {
        return put_right(out, at, b"-", HOME);
    }
    let place = put_right(out, at, b"hash ", HOME - 2);
    put_hash_digits(out, place, hash)
}

// The node, in the column of the destination.
fn put_node(out: &mut Buffer, at: usize, node: u16) -> usize {
    if node == 0 {
        return put_right(out, at, b"-", WIDTH);
    }
    put_marked(out, at, b"", number_of(node), WIDTH)
}

// The power, in the column of the command.
fn put_power(out: &mut Buffer, at: usize, power: u16) -> usize {
    if power == 0 {
        return at;
    }
    put_marked(out, at, b"         power ", number_of(power), 0)
}

pub fn put_beam(out: &mut Buffer, at: usize, frame: FrameRecord, colour: bool) -> usize {
    let mut place = put_count(out, at, frame.beams, colour);
    place = put_hash(out, place, frame.hash);
    place = put_right(out, place, b"-", SOURCE);
    place = put_node(out, place, frame.node);
    place = put_marked(out, place, b"", frame.length as u64, 5);
    put_power(out, place, frame.power)
}
