// The requests on the header of an MPDU and on the parameters of a command, both by a definition text.
#![tactic(auto, using(crate::proofs::Laws::laws))]

ghost use Rattle.std.specs.Prelude.{◌≤◌, ◌*◌, length};
ghost use Rattle.answer.specs.Table.{Ample};
ghost use Rattle.header_rules.specs.Table.{row_width as headerWidth};
ghost use Rattle.command_rules.specs.Rows.{row_width as commandWidth};
ghost use Rattle.walk_requests.specs.Walks.{Tables, Asks};

use answer::table::{MOST_ROWS, fill, put_refused, put_touched};
use answer::{put_named, put_numbers, put_value};
use libtap::commands::{TapParams, tap_decode_params};
use libtap::headers::{TapHeader, tap_decode_header};
use request::{read_both, read_leading, read_two};
use writer::{Buffer, put_number};

// A request for a header: how many numbers the table has, where the MPDU starts behind the text, and where it ends.
#[derive(Clone, Copy)]
struct Request {
    numbers: usize,
    region: u64,
    speed: u64,
    n: usize,
    end: usize,
}

// A request for a command: whether it names the offsets and whether they are by position, where the payload starts behind the text, and where it ends.
#[derive(Clone, Copy)]
struct CommandAsked {
    by: bool,
    by_position: bool,
    n: usize,
    end: usize,
}

// `CAP` of rows so wide
fn read_table(words: &[u8], width: usize) -> Option<(usize, usize)>
    requires { width ≤ 10 }
    ensures { Tables words.now result }
{
    let (cap, at) = read_leading(words)?;
    if MOST_ROWS < cap {
        return None;
    }
    Some((cap as usize * width, at))
}

// `CAP REGION SPEED TEXT MPDU`
fn read_asked(words: &[u8], bytes: &mut [u8]) -> Option<Request>
    ensures { Asks bytes.new result }
{
    let (numbers, at) = read_table(words, header_rows::ROW_WIDTH)?;
    let others = &words[at..];
    let (region, speed, from) = read_two(others)?;
    let (n, end) = read_both(&others[from..], bytes)?;
    Some(Request {
        numbers,
        region,
        speed,
        n,
        end,
    })
}

// `header CAP REGION SPEED TEXT MPDU`
pub fn header(
    words: &[u8],
    bytes: &mut [u8],
    rows: &mut [u64],
    out: &mut Buffer,
    used: usize,
) -> Option<usize>
    requires { Ample rows.old }
{
    let request = read_asked(words, bytes)?;
    let numbers = request.numbers;
    Some(answer_header(bytes, request, &mut rows[..numbers], out, used))
}

// `CAP TEXT PAYLOAD`, of `commandby` or of `command`
fn answer_asked(
    words: &[u8],
    by: bool,
    by_position: bool,
    bytes: &mut [u8],
    rows: &mut [u64],
    out: &mut Buffer,
    used: usize,
) -> Option<usize>
    requires { Ample rows.old }
{
    let (numbers, at) = read_table(words, command_rows::ROW_WIDTH)?;
    let (n, end) = read_both(&words[at..], bytes)?;
    let asked = CommandAsked {
        by,
        by_position,
        n,
        end,
    };
    Some(answer_command(bytes, asked, &mut rows[..numbers], out, used))
}

// `command CAP TEXT PAYLOAD`
pub fn command(
    words: &[u8],
    bytes: &mut [u8],
    rows: &mut [u64],
    out: &mut Buffer,
    used: usize,
) -> Option<usize>
    requires { Ample rows.old }
{
    answer_asked(words, false, false, bytes, rows, out, used)
}

// `commandby MODE CAP TEXT PAYLOAD`
pub fn commandby(
    words: &[u8],
    bytes: &mut [u8],
    rows: &mut [u64],
    out: &mut Buffer,
    used: usize,
) -> Option<usize>
    requires { Ample rows.old }
{
    let (mode, at) = read_leading(words)?;
    if 1 < mode {
        return None;
    }
    answer_asked(&words[at..], true, mode == 1, bytes, rows, out, used)
}

// The first n bytes are the text, those behind them up to the end the MPDU.
fn answer_header(
    bytes: &[u8],
    request: Request,
    rows: &mut [u64],
    out: &mut Buffer,
    used: usize,
) -> usize
    requires { (request.n ≤ request.end) × (request.end ≤ length bytes.now) }
{
    let n = request.n;
    let end = request.end;
    fill(rows);
    walk_header(
        &bytes[..n],
        &bytes[n..end],
        request.region,
        request.speed,
        rows,
        out,
        used,
    )
}

// The first n bytes are the text, those behind them up to the end the payload.
fn answer_command(
    bytes: &[u8],
    asked: CommandAsked,
    rows: &mut [u64],
    out: &mut Buffer,
    used: usize,
) -> usize
    requires { (asked.n ≤ asked.end) × (asked.end ≤ length bytes.now) }
{
    let n = asked.n;
    let end = asked.end;
    fill(rows);
    walk_command(&bytes[..n], &bytes[n..end], asked, rows, out, used)
}

fn walk_header(
    text: &[u8],
    mpdu: &[u8],
    region: u64,
    speed: u64,
    rows: &mut [u64],
    out: &mut Buffer,
    used: usize,
) -> usize {
    let header = tap_decode_header(text, mpdu, region, speed, rows);
    put_decoded(out, used, header, rows)
}

fn walk_command(
    text: &[u8],
    payload: &[u8],
    asked: CommandAsked,
    rows: &mut [u64],
    out: &mut Buffer,
    used: usize,
) -> usize {
    let params = tap_decode_params(text, payload, asked.by_position, rows);
    put_params(out, used, asked.by, params, rows)
}

// The word that answers a request on a command, and how many rows it has.
fn put_counted(out: &mut Buffer, used: usize, by: bool, count: u64) -> usize {
    if by {
        return put_named(out, used, b"commandby", count);
    }
    put_named(out, used, b"command", count)
}

// The answer of `tap_decode_header` and the table that it was lent.
fn put_decoded(out: &mut Buffer, used: usize, header: TapHeader, table: &[u64]) -> usize
    requires { header.rows * headerWidth ≤ length table.now }
{
    if header.refusal != 0 {
        return put_refused(out, used, header.refusal, header.value, table);
    }
    let n = put_heading(out, used, header);
    put_table(out, n, table, header.rows as usize * header_rows::ROW_WIDTH)
}

// The answer of `tap_decode_params` and the table that it was lent.
fn put_params(out: &mut Buffer, used: usize, by: bool, params: TapParams, table: &[u64]) -> usize
    requires { params.rows * commandWidth ≤ length table.now }
{
    if params.refusal != 0 {
        return put_refused(out, used, params.refusal, params.value, table);
    }
    let mut n = put_counted(out, used, by, params.rows);
    n = put_value(out, n, params.remainder);
    put_table(
        out,
        n,
        table,
        params.rows as usize * command_rows::ROW_WIDTH,
    )
}

fn put_heading(out: &mut Buffer, used: usize, header: TapHeader) -> usize {
    let mut n = put_named(out, used, b"header", header.number);
    n = put_value(out, n, header.key);
    n = put_flags(out, n, header);
    n = put_value(out, n, header.payload);
    n = put_value(out, n, header.right as u64);
    put_value(out, n, header.rows)
}

// The flags, a digit each.
fn put_flags(out: &mut Buffer, used: usize, header: TapHeader) -> usize {
    let mut n = put_value(out, used, header.ack as u64);
    n = put_number(out, n, header.routed as u64);
    n = put_number(out, n, header.multicast as u64);
    put_number(out, n, header.error as u64)
}

// The numbers that an answer wrote, which are so many, and whether the table is untouched past them.
fn put_table(out: &mut Buffer, used: usize, table: &[u64], numbers: usize) -> usize
    requires { numbers ≤ length table.now }
{
    let n = put_numbers(out, used, &table[..numbers]);
    put_touched(out, n, &table[numbers..])
}
