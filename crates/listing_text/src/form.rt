// The form of a listing.
ghost use Rattle.std.specs.Prelude.{◌≡◌};
ghost use Rattle.text.specs.Text.{lines, fields};
ghost use Rattle.listing_text.specs.Listing.{row_width, numbers_in, last_of, form_of};

use crate::lines::ROW_WIDTH;
use numerals::numbers::read_value;
use text::{Place, find};

// The header that a listing names: its number, and the last line, on which that stands.
#[derive(Clone, Copy)]
pub struct Named {
    pub number: u64,
    pub line: usize,
}

// Are the fields of a line the numbers of a row?
fn is_row(s: &[u8]) -> bool
    ensures { result ≡ numbers_in row_width (fields s.now) }
{
    let mut at = 0;
    for more in (0..ROW_WIDTH).rev() {
        let rest = &s[at..];
        let e = find(rest, 9);
        if read_value(&rest[..e]).is_none() {
            return false;
        }
        if e == rest.len() {
            return more == 0;
        }
        at = at + e + 1;
    }
    false
}

// What the last line names, or that it is not of the form.
fn read_last(s: &[u8], line: usize) -> Result<Named, usize>
    ensures { result ≡ last_of line s.now }
{
    let number = read_value(s).ok_or(line)?;
    Ok(Named { number, line })
}

// What a listing names, or the first line that is not of the form.
pub fn read_form(listing: &[u8]) -> Result<Named, usize>
    ensures { result ≡ form_of 1 (lines listing.now) }
{
    let mut place = Place::start();
    loop {
        let at = place.at;
        let line = place.line;
        let rest = &listing[at..];
        let e = find(rest, 10);
        if e == rest.len() {
            return Err(line);
        }
        let next = at + e + 1;
        if next == listing.len() {
            return read_last(&rest[..e], line);
        }
        if !is_row(&rest[..e]) {
            return Err(line);
        }
        place = Place {
            at: next,
            line: line + 1,
        };
    }
}
