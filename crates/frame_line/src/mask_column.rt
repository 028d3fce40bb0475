// The nodes of a mask in the column of the destination: how many, and as many of them as have room.
ghost use Rattle.std.specs.Prelude.{◌≤◌, length};

use header_nodes::row_nodes;
use writer::{Buffer, put, put_marked, put_number, put_right, put_spaces};

// The bytes of the column, with the two before it.
pub const WIDTH: usize = 16;

// How many nodes are listed at most: those of a field of 255 bytes.
const MOST: usize = 2040;

// How many nodes have room, and how much of it they leave.
#[derive(Clone, Copy)]
struct Fitting {
    count: usize,
    left: usize,
}

// How many digits a node has.
fn digits(node: u64) -> usize
    ensures { result ≤ 5 }
{
    match node {
        0..=9 => 1,
        10..=99 => 2,
        100..=999 => 3,
        1000..=9999 => 4,
        _ => 5,
    }
}

// How many nodes, each behind a space, have room in so many bytes.
fn fit_nodes(nodes: &[u16], room: usize) -> Fitting
    ensures { result.count ≤ length nodes.now }
{
    let mut left = room;
    for (count, node) in nodes.iter().enumerate() {
        let size = 1 + digits(u64::from(*node));
        if left < size {
            return Fitting { count, left };
        }
        left -= size;
    }
    Fitting {
        count: nodes.len(),
        left,
    }
}

// The room that so many nodes leave behind their number.
fn room_behind(n: usize) -> usize
    ensures { result ≤ 13 }
{
    WIDTH - 3 - digits(n as u64)
}

fn put_each(out: &mut Buffer, at: usize, nodes: &[u16]) -> usize {
    let mut place = at;
    for node in nodes {
        place = put_marked(out, place, b" ", u64::from(*node), 0);
    }
    place
}

// The number of all nodes, behind so many spaces, and those that are shown.
fn put_shown(out: &mut Buffer, at: usize, n: usize, blank: usize, shown: &[u16]) -> usize {
    let mut place = put(out, at, b"  ");
    place = put_spaces(out, place, blank);
    place = put_number(out, place, n as u64);
    place = put(out, place, b":");
    put_each(out, place, shown)
}

// All nodes, or the first of them and two dots.
fn put_nodes(out: &mut Buffer, at: usize, nodes: &[u16]) -> usize {
    let n = nodes.len();
    let room = room_behind(n);
    let all = fit_nodes(nodes, room);
    if all.count == n {
        return put_shown(out, at, n, all.left, nodes);
    }
    if room < 3 {
        return put_right(out, at, b"mask", WIDTH);
    }
    let some = fit_nodes(nodes, room - 3);
    let k = some.count;
    let place = put_shown(out, at, n, some.left, &nodes[..k]);
    put(out, place, b" ..")
}

fn put_first(out: &mut Buffer, at: usize, nodes: &[u16], n: usize) -> usize {
    match nodes.get(..n) {
        Some(shown) => put_nodes(out, at, shown),
        None => put_right(out, at, b"mask", WIDTH),
    }
}

// The nodes of row i of a header, in its column.
pub fn put_mask(
    out: &mut Buffer,
    at: usize,
    text: &[u8],
    mpdu: &[u8],
    rows: &[u64],
    i: usize,
) -> usize {
    let mut nodes = [0u16; MOST];
    match row_nodes(text, mpdu, rows, i, &mut nodes) {
        Ok(n) => put_first(out, at, &nodes, n),
        Err(_) => put_right(out, at, b"mask", WIDTH),
    }
}
