// Colour, where the output is for a terminal.
use writer::{Buffer, put, put_left};

// What is coloured.
#[derive(Clone, Copy)]
pub enum Hue {
    // A frame's or a command's name.
    Name,
    // A checksum that is not right.
    Wrong,
    // Why there is no name.
    Unnamed,
}

// From here on in colour, if there is any.
pub fn begin(out: &mut Buffer, at: usize, colour: bool, hue: Hue) -> usize {
    if colour {
        return match hue {
            Hue::Name => put(out, at, b"\x1b[36m"),
            Hue::Wrong => put(out, at, b"\x1b[31m"),
            Hue::Unnamed => put(out, at, b"\x1b[33m"),
        };
    }
    at
}

// From here on without.
pub fn end(out: &mut Buffer, at: usize, colour: bool) -> usize {
    if colour {
        return put(out, at, b"\x1b[0m");
    }
    at
}

// Bytes in colour at the left of a column.
pub fn put_painted(
    out: &mut Buffer,
    at: usize,
    bytes: &[u8],
    width: usize,
    hue: Hue,
    colour: bool,
) -> usize {
    let mut place = begin(out, at, colour, hue);
    place = put_left(out, place, bytes, width);
    end(out, place, colour)
}
