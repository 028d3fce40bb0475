// Room for an XML, and what a word has written into it, with the last line.
ghost use Rattle.std.specs.Prelude.{◌≡◌, length};

use output::outcome::{fail, succeed};
use writer::STDOUT_FILENO;

// The bytes of the longest XML that is written, one more than those of the longest that is read.
pub const ROOM: usize = 524288;

// So many zeros. The `ensures` gives only their number, so that no caller looks into them.
pub fn room() -> [u8; ROOM]
    ensures { 524288 ≡ length result }
{
    [0; ROOM]
}

fn write_all(bytes: &[u8]) {
    if io::write_all(STDOUT_FILENO, bytes) {
        succeed();
        return;
    }
    fail(b"tap: the text could not be written\n");
}

// The first n bytes, or all where there are fewer.
pub fn write_first(bytes: &[u8], n: usize) {
    if n < bytes.len() {
        write_all(&bytes[..n]);
        return;
    }
    write_all(bytes);
}
