// The nodes of a mask, under its line.
use writer::{Buffer, put, put_marked, put_number};

// How many nodes a line has.
const LINE: usize = 16;

// The most nodes that a mask has: those of 2,048 bytes.
pub const MOST_NODES: usize = 16384;

// What stands before a node: a line is begun after every sixteenth.
fn put_gap(out: &mut Buffer, at: usize, i: usize) -> usize {
    if 0 < i && i % LINE == 0 {
        return put(out, at, b"\n                 ");
    }
    put(out, at, b" ")
}

// How many nodes there are, and all of them.
pub fn put_nodes(out: &mut Buffer, at: usize, nodes: &[u16]) -> usize {
    let mut place = put_marked(out, at, b"", nodes.len() as u64, 10);
    place = put(out, place, b" nodes:");
    for (i, node) in nodes.iter().enumerate() {
        place = put_gap(out, place, i);
        place = put_number(out, place, u64::from(*node));
    }
    put(out, place, b"\n")
}

// The first n nodes of a table.
pub fn put_first(out: &mut Buffer, at: usize, nodes: &[u16], n: usize) -> usize {
    match nodes.get(..n) {
        Some(shown) => put_nodes(out, at, shown),
        None => at,
    }
}
