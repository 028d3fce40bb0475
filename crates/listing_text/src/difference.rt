// The first line of a listing that differs.
ghost use Rattle.std.specs.Prelude.{◌≡◌, ◌*◌, ◌≤◌, length};
ghost use Rattle.listing_text.specs.Listing.{row_width, closed, differs};
ghost use Rattle.listing_text.specs.Steps.{Passes, rows_in};

use crate::lines::{LONGEST, ROW_WIDTH, write_line};
use text::is_same;

// How many bytes the line of these numbers has, if s begins with it.
fn pass_line(s: &[u8], numbers: &[u64]) -> Option<usize>
    requires { length numbers.now ≤ row_width }
    ensures { Passes numbers.now s.now result }
{
    let mut line = [0u8; LONGEST];
    let n = write_line(numbers, &mut line);
    if s.len() < n {
        return None;
    }
    if is_same(&s[..n], &line[..n]) {
        return Some(n);
    }
    None
}

// The first line of a listing that differs from that of the first rows of a table and of a header's number, if one does.
pub fn first_difference(listing: &[u8], rows: &[u64], count: usize, number: u64) -> Option<usize>
    requires { (count ≤ 128) × (count * row_width ≤ length rows.now) }
    ensures { result ≡ differs 1 (closed (rows_in count rows.now) number) listing.now }
{
    let mut at = 0;
    for k in 0..count {
        let a = k * ROW_WIDTH;
        let e = a + ROW_WIDTH;
        let Some(n) = pass_line(&listing[at..], &rows[a..e]) else {
            return Some(k + 1);
        };
        at += n;
    }
    let last = [number];
    let Some(n) = pass_line(&listing[at..], &last) else {
        return Some(count + 1);
    };
    if at + n == listing.len() {
        return None;
    }
    Some(count + 2)
}
