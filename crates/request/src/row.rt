// The words of a request for a row of a header or of a command: numbers, and then the bytes of a definition text and of what is read by it.
ghost use Rattle.request.specs.Row.{AsksHeader, AsksCommand};

use crate::{read_both, read_leading, read_two};

// A row of a header: how much room is asked for, its number, the region and the speed, where the MPDU starts behind the text, and where it ends.
#[derive(Clone, Copy)]
pub struct HeaderRow {
    pub cap: usize,
    pub row: usize,
    pub region: u64,
    pub speed: u64,
    pub n: usize,
    pub end: usize,
}

// A row of a command: how much room is asked for, its number, how offsets are read, where the payload starts behind the text, and where it ends.
#[derive(Clone, Copy)]
pub struct CommandRow {
    pub cap: usize,
    pub row: usize,
    pub by_position: bool,
    pub n: usize,
    pub end: usize,
}

// `CAP ROW REGION SPEED TEXT MPDU`, where CAP is at most so much
pub fn read_header_row(words: &[u8], most: u64, bytes: &mut [u8]) -> Option<HeaderRow>
    ensures { AsksHeader most words.now bytes.new result }
{
    let (cap, row, at) = read_two(words)?;
    if most < cap {
        return None;
    }
    let others = &words[at..];
    let (region, speed, from) = read_two(others)?;
    let (n, end) = read_both(&others[from..], bytes)?;
    Some(HeaderRow {
        cap: cap as usize,
        row: row as usize,
        region,
        speed,
        n,
        end,
    })
}

// `MODE CAP ROW TEXT PAYLOAD`, where CAP is at most so much and MODE is 0, or 1 for offsets by position
pub fn read_command_row(words: &[u8], most: u64, bytes: &mut [u8]) -> Option<CommandRow>
    ensures { AsksCommand most words.now bytes.new result }
{
    let (mode, at) = read_leading(words)?;
    if 1 < mode {
        return None;
    }
    let others = &words[at..];
    let (cap, row, from) = read_two(others)?;
    if most < cap {
        return None;
    }
    let (n, end) = read_both(&others[from..], bytes)?;
    Some(CommandRow {
        cap: cap as usize,
        row: row as usize,
        by_position: mode == 1,
        n,
        end,
    })
}
