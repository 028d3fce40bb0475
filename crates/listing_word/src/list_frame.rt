// The word `list`: our own listing of a frame's header. The listing is all of the output but its last line, which bin/tap takes off.
use listing::write_listing;
use output::outcome::{fail, refuse, succeed};
use writer::STDOUT_FILENO;

fn write_text(listing: &[u8]) {
    if io::write_all(STDOUT_FILENO, listing) {
        succeed();
        return;
    }
    fail(b"tap: the listing could not be written\n");
}

#[tactic(auto, using(crate::proofs::Laws::laws))]
fn list_into(text: &[u8], mpdu: &[u8], region: u64, rate: u64, buffer: &mut [u8]) {
    match write_listing(text, mpdu, region, rate, buffer) {
        Ok(n) => write_text(&buffer[..n]),
        Err(refusal) => refuse(refusal),
    }
}

// The listing of an MPDU by a frame text, for a region of the frame text and a rate.
pub fn list_mpdu(text: &[u8], mpdu: &[u8], region: u64, rate: u64) {
    let mut buffer = io::large_buffer();
    list_into(text, mpdu, region, rate, &mut buffer);
}
