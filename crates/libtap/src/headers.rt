// The calls on an MPDU.
ghost use Rattle.std.specs.Prelude.{◌≡◌, length};
ghost use Rattle.bits.specs.Bits.{bits_read};
ghost use Rattle.crc.specs.Crc.{right};
ghost use Rattle.command_part.specs.Part.{command_part, span};
ghost use Rattle.libtap.specs.Answers.{part};
ghost use Rattle.libtap.specs.Headers.{told_bits, headed, told_header, ToldHeader};

use crate::frames::TapPart;
use command_part::find_command;
use header::{DecodedHeader, decode_header};
use refusal::Refusal;

// Bits as C has them: `is_read` says whether there is a value.
#[repr(C)]
#[derive(Clone, Copy)]
pub struct TapBits {
    pub is_read: bool,
    pub value: u64,
}

// A header as C has it: where `refusal` is 0, which H line it is, its key, where its name starts in the text and how long that is, where
// the payload starts in the MPDU, how many rows there are, whether the checksum or CRC is right, and the H's four flags.
#[repr(C)]
#[derive(Clone, Copy)]
pub struct TapHeader {
    pub refusal: u64,
    pub value: u64,
    pub number: u64,
    pub key: u64,
    pub name: u64,
    pub name_length: u64,
    pub payload: u64,
    pub rows: u64,
    pub right: bool,
    pub ack: bool,
    pub routed: bool,
    pub multicast: bool,
    pub error: bool,
}

fn tell_bits(bits: Option<u64>) -> TapBits
    ensures { result ≡ told_bits bits }
{
    match bits {
        Some(value) => TapBits {
            is_read: true,
            value,
        },
        None => TapBits {
            is_read: false,
            value: 0,
        },
    }
}

// The number that `width` bits form from the bit `start` on, first bit highest; none for width 0, over 64, or past the end.
pub fn tap_read_bits(data: &[u8], start: u64, width: u64) -> TapBits
    ensures { result ≡ told_bits (bits_read «data».now start width) }
{
    let bits = bits::read_bits(data, start, width);
    tell_bits(bits)
}

// Is the MPDU's checksum (speeds 0 and 1) or CRC right?
pub fn tap_check_crc(mpdu: &[u8], speed: u64) -> bool
    ensures { result ≡ right mpdu.now speed }
{
    crc::check_crc(mpdu, speed)
}

fn tell_heading(header: DecodedHeader) -> TapHeader
    ensures { result ≡ headed header }
{
    let flags = header.flags;
    let name = header.name;
    TapHeader {
        refusal: 0,
        value: 0,
        number: header.number as u64,
        key: header.key as u64,
        name: name.start as u64,
        name_length: name.len as u64,
        payload: header.payload,
        rows: header.rows as u64,
        right: header.right,
        ack: flags.ack,
        routed: flags.routed,
        multicast: flags.multicast,
        error: flags.error,
    }
}

fn tell_header(decoded: Result<DecodedHeader, Refusal>) -> TapHeader
    ensures { result ≡ told_header decoded }
{
    match decoded {
        Ok(header) => tell_heading(header),
        Err(refusal) => TapHeader {
            refusal: refusal.number() as u64,
            value: refusal.carried() as u64,
            number: 0,
            key: 0,
            name: 0,
            name_length: 0,
            payload: 0,
            rows: 0,
            right: false,
            ack: false,
            routed: false,
            multicast: false,
            error: false,
        },
    }
}

// The header of an MPDU by a frame text, its rows into the table, the seven numbers of H18 (docs/RULES.md) a row. `region` is an F's code. Refusals 1 to 8.
pub fn tap_decode_header(
    text: &[u8],
    mpdu: &[u8],
    region: u64,
    speed: u64,
    rows: &mut [u64],
) -> TapHeader
    ensures { ToldHeader text.now mpdu.now region speed rows.old result rows.new }
{
    let decoded = decode_header(text, mpdu, region, speed, rows);
    tell_header(decoded)
}

// Where the command lies in an MPDU whose header ends at byte `payload`: before the checksum. An empty part where there is no room for one.
pub fn tap_command_part(mpdu: &[u8], payload: u64, speed: u64) -> TapPart
    ensures { result ≡ part (span (command_part (length mpdu.now) payload speed)) }
{
    let found = find_command(mpdu.len(), payload, speed);
    TapPart {
        start: found.start as u64,
        length: found.length as u64,
    }
}
