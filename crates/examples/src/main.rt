// The examples of docs/RULES.md: E1 to E11 are proved (specs/Examples.antt); all of them are run here, and what is written is held to the
// file `stdout`.
#![tactic(auto)]

use command::{Offsets, decode_params};
use crc::check_crc;
use header::decode_header;
use pti::{Reading, beam_count, count_records, parse_record, record_body, speed_for};
use readers::line_fields::field_of;
use refusal::Refusal;
use writer::{STDOUT_FILENO, print_number};

fn print(name: &[u8], value: u64) {
    io::write_all(STDOUT_FILENO, name);
    io::write_all(STDOUT_FILENO, b" ");
    print_number(STDOUT_FILENO, value);
    io::write_all(STDOUT_FILENO, b"\n");
}

// The same with the name that is piece k of some that are parted by tabs.
fn print_piece(names: &[u8], k: usize, value: u64) {
    print(field_of(names, k), value);
}

fn print_refusal(name: &[u8], refusal: Refusal) {
    io::write_all(STDOUT_FILENO, name);
    io::write_all(STDOUT_FILENO, b" refused ");
    print_number(STDOUT_FILENO, refusal.number() as u64);
    print(b"", refusal.carried() as u64);
}

fn print_count(name: &[u8], payload: &[u8]) {
    match count_records(payload) {
        Ok(n) => print(name, n as u64),
        Err(refusal) => print_refusal(name, refusal),
    }
}

// The MPDU's length of the frame in a body.
fn print_mpdu(name: &[u8], body: &[u8]) {
    match parse_record(body, 2, Reading::Marker) {
        Ok(frame) => print(name, frame.length as u64),
        Err(refusal) => print_refusal(name, refusal),
    }
}

fn print_right(name: &[u8], mpdu: &[u8], speed: u64) {
    print(name, check_crc(mpdu, speed) as u64);
}

// The header of an MPDU, by the text of E9: what it answers, and the rows of Type and Flags.
fn print_header(name: &[u8], mpdu: &[u8]) {
    let mut rows = [0; 28];
    let text = b"B\t0
P\t0\t0\t8\tHEX\tHome\t-\t-\t-
P\t0\t1\t8\tHEX\tProps\t-\t-\t-
P\t1\t0\t4\tHEX\tType\t-\t-\t-
P\t1\t1\t4\tHEX\tFlags\t-\t-\t-
H\t0\t0\t0000\tx
V\tProps.Type\t3
";
    let names: &[u8] =
        b"  payload offset:\t  checksum right:\t  Type at bit:\t  Type:\t  Flags at bit:\t  Flags:";
    match decode_header(text, mpdu, 0, 0, &mut rows) {
        Ok(answer) => {
            print(name, answer.rows as u64);
            print_piece(names, 0, answer.payload);
            print_piece(names, 1, answer.right as u64);
            print_piece(names, 2, rows[16]);
            print_piece(names, 3, rows[19]);
            print_piece(names, 4, rows[23]);
            print_piece(names, 5, rows[26]);
        }
        Err(refusal) => print_refusal(name, refusal),
    }
}

// The parameters of a command, by the text of E11: how many rows, where each starts and ends, their values, and where the remainder starts.
fn print_params(name: &[u8], payload: &[u8]) {
    let mut rows = [0; 20];
    let text = b"Q\t0\tBYTE\tLength\t-\t-\nQ\t0\tVARIANT\tData\t-\t-\nR\t0\t7\t0\t0\n";
    let names: &[u8] =
        b"  Length starts:\t  Length ends:\t  Length:\t  Data starts:\t  Data ends:\t  remainder starts:";
    match decode_params(text, payload, Offsets::Answered, &mut rows) {
        Ok(told) => {
            print(name, told.count as u64);
            print_piece(names, 0, rows[3]);
            print_piece(names, 1, rows[4]);
            print_piece(names, 2, rows[6]);
            print_piece(names, 3, rows[13]);
            print_piece(names, 4, rows[14]);
            print_piece(names, 5, told.remainder.0 as u64);
        }
        Err(refusal) => print_refusal(name, refusal),
    }
}

// A body with eight middle bytes, the last of which is l.
fn body_of(l: u8) -> [u8; 26] {
    let mut body = [0; 26];
    body[0] = 2;
    body[11] = 0xF8;
    body[19] = l;
    body[20] = 0xF9;
    body[24] = 6;
    body
}

fn print_records() {
    print_count(b"bodies of 5B 02 00 5D:", b"\x5B\x02\x00\x5D");
    print_count(b"bodies of 5B 02 00 5D 00:", b"\x5B\x02\x00\x5D\x00");
    print(
        b"length of the first:",
        record_body(b"\x5B\x02\x00\x5D\x00", 0).len() as u64,
    );
}

fn print_radio() {
    print(b"rate of channel 3 in region 12:", speed_for(3, 12) as u64);
    print(b"rate of channel 2 in region 14:", speed_for(2, 14) as u64);
    print(
        b"beams at rate 0 in 55 01 02 AA 55 01 02:",
        beam_count(0, b"\x55\x01\x02\xAA\x55\x01\x02") as u64,
    );
}

fn print_checksums() {
    let names: &[u8] =
        b"01 02 03 FF right at speed 0:\t00 FF right at speed 0:\t1D 0F 00 right at speed 2:\t1D 0F right at speed 2:";
    print_right(field_of(names, 0), b"\x01\x02\x03\xFF", 0);
    print_right(field_of(names, 1), b"\x00\xFF", 0);
    print_right(field_of(names, 2), b"\x1D\x0F\x00", 2);
    print_right(field_of(names, 3), b"\x1D\x0F", 2);
}

fn print_walks() {
    print_header(b"rows of A5 C3:", b"\xA5\xC3");
    print_header(b"rows of A5 3C:", b"\xA5\x3C");
    print_params(b"rows of 20 01 02 AA BB CC:", b"\x20\x01\x02\xAA\xBB\xCC");
}

fn print_bodies() {
    print_mpdu(b"mpdu for m = 8, l = 0:", &body_of(0));
    print_mpdu(b"mpdu for m = 8, l = 8:", &body_of(8));
    print_mpdu(b"mpdu for m = 8, l = 9:", &body_of(9));
}

fn print_longest() {
    let mut longest = [0; 2048];
    longest[0] = 2;
    longest[11] = 0xF8;
    longest[19] = 200;
    longest[2042] = 0xF9;
    longest[2046] = 6;
    print_mpdu(b"mpdu in a body of 2048 bytes, l = 200:", &longest);
    print_mpdu(b"mpdu in a body of 2049 bytes:", &[0; 2049]);
}

fn main() {
    print_records();
    print_radio();
    print_checksums();
    print_walks();
    print_bodies();
    print_longest();
}
