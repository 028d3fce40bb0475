// The requests on values as people read them.
#![tactic(auto, using(crate::proofs::Laws::laws))]

ghost use Rattle.std.specs.Prelude.{◌≤◌, length};

use answer::table::{BYTE, MOST_BYTES, put_written};
use libtap::values::{tap_command_value, tap_header_value};
use request::row::{CommandRow, HeaderRow, read_command_row, read_header_row};
use writer::Buffer;

// The first bytes are the text, those behind them up to the end the MPDU.
fn show_header(
    bytes: &[u8],
    asked: HeaderRow,
    buffer: &mut [u8],
    out: &mut Buffer,
    used: usize,
) -> usize
    requires { (asked.n ≤ asked.end) × (asked.end ≤ length bytes.now) }
{
    let n = asked.n;
    let end = asked.end;
    let written = tap_header_value(
        &bytes[..n],
        &bytes[n..end],
        asked.region,
        asked.speed,
        asked.row,
        buffer,
    );
    put_written(
        out,
        used,
        b"headervalue ",
        written.refusal,
        written.value,
        buffer,
    )
}

// `headervalue CAP ROW REGION SPEED TEXT MPDU`
pub fn headervalue(words: &[u8], bytes: &mut [u8], out: &mut Buffer, used: usize) -> Option<usize> {
    let asked = read_header_row(words, MOST_BYTES, bytes)?;
    let room = asked.cap;
    let mut buffer = [BYTE; 196608];
    Some(show_header(bytes, asked, &mut buffer[..room], out, used))
}

// The first bytes are the text, those behind them up to the end the payload.
fn show_command(
    bytes: &[u8],
    asked: CommandRow,
    buffer: &mut [u8],
    out: &mut Buffer,
    used: usize,
) -> usize
    requires { (asked.n ≤ asked.end) × (asked.end ≤ length bytes.now) }
{
    let n = asked.n;
    let end = asked.end;
    let written = tap_command_value(
        &bytes[..n],
        &bytes[n..end],
        asked.by_position,
        asked.row,
        buffer,
    );
    put_written(
        out,
        used,
        b"commandvalue ",
        written.refusal,
        written.value,
        buffer,
    )
}

// `commandvalue MODE CAP ROW TEXT PAYLOAD`
pub fn commandvalue(
    words: &[u8],
    bytes: &mut [u8],
    out: &mut Buffer,
    used: usize,
) -> Option<usize> {
    let asked = read_command_row(words, MOST_BYTES, bytes)?;
    let room = asked.cap;
    let mut buffer = [BYTE; 196608];
    Some(show_command(bytes, asked, &mut buffer[..room], out, used))
}
