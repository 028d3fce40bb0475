// The requests on the nodes that a row addresses.
#![tactic(auto, using(crate::proofs::Laws::laws))]

ghost use Rattle.std.specs.Prelude.{◌≤◌, length};
ghost use Rattle.libtap.specs.Answers.{Stands};

use answer::table::{MOST_ROWS, SHORT, put_touched_short};
use answer::{put_named, put_refusal, put_value};
use libtap::TapAnswer;
use libtap::nodes::{tap_command_nodes, tap_header_nodes};
use request::row::{CommandRow, HeaderRow, read_command_row, read_header_row};
use writer::Buffer;

fn wide(node: u16) -> u64 {
    node as u64
}

// Nodes, each behind a space.
fn put_nodes(out: &mut Buffer, used: usize, nodes: &[u16]) -> usize {
    let mut n = used;
    for node in nodes {
        n = put_value(out, n, wide(*node));
    }
    n
}

// What a call answers, and the table that it was lent.
fn put_listed(out: &mut Buffer, used: usize, word: &[u8], listed: TapAnswer, nodes: &[u16]) -> usize
    requires { Stands nodes.now listed }
{
    if listed.refusal != 0 {
        let m = put_refusal(out, used, listed.refusal, listed.value);
        return put_touched_short(out, m, nodes);
    }
    let n = listed.value as usize;
    let m = put_named(out, used, word, listed.value);
    let e = put_nodes(out, m, &nodes[..n]);
    put_touched_short(out, e, &nodes[n..])
}

// The first bytes are the text, those behind them up to the end the MPDU.
fn list_header(
    bytes: &[u8],
    asked: HeaderRow,
    nodes: &mut [u16],
    out: &mut Buffer,
    used: usize,
) -> usize
    requires { (asked.n ≤ asked.end) × (asked.end ≤ length bytes.now) }
{
    let n = asked.n;
    let end = asked.end;
    let listed = tap_header_nodes(
        &bytes[..n],
        &bytes[n..end],
        asked.region,
        asked.speed,
        asked.row,
        nodes,
    );
    put_listed(out, used, b"headernodes", listed, nodes)
}

// `headernodes CAP ROW REGION SPEED TEXT MPDU`
pub fn headernodes(words: &[u8], bytes: &mut [u8], out: &mut Buffer, used: usize) -> Option<usize> {
    let asked = read_header_row(words, MOST_ROWS, bytes)?;
    let room = asked.cap;
    let mut nodes = [SHORT; 16384];
    Some(list_header(bytes, asked, &mut nodes[..room], out, used))
}

// The first bytes are the text, those behind them up to the end the payload.
fn list_command(
    bytes: &[u8],
    asked: CommandRow,
    nodes: &mut [u16],
    out: &mut Buffer,
    used: usize,
) -> usize
    requires { (asked.n ≤ asked.end) × (asked.end ≤ length bytes.now) }
{
    let n = asked.n;
    let end = asked.end;
    let listed = tap_command_nodes(
        &bytes[..n],
        &bytes[n..end],
        asked.by_position,
        asked.row,
        nodes,
    );
    put_listed(out, used, b"commandnodes", listed, nodes)
}

// `commandnodes MODE CAP ROW TEXT PAYLOAD`
pub fn commandnodes(
    words: &[u8],
    bytes: &mut [u8],
    out: &mut Buffer,
    used: usize,
) -> Option<usize> {
    let asked = read_command_row(words, MOST_ROWS, bytes)?;
    let room = asked.cap;
    let mut nodes = [SHORT; 16384];
    Some(list_command(bytes, asked, &mut nodes[..room], out, used))
}
