// The calls on an MPDU.
ghost use Rattle.std.specs.Prelude.{◌≡◌, length};
ghost use Rattle.bits.specs.Bits.{bits_read};
ghost use Rattle.crc.specs.Crc.{right};
ghost use Rattle.command_part.specs.Part.{command_part, span};
ghost use Rattle.libtap.specs.Answers.{part};
ghost use Rattle.libtap.specs.Headers.{told_bits, ToldHeader};

use libtap::frames::TapPart;
use libtap::headers::{TapBits, TapHeader};

// The number that `width` bits form from the bit `start` on, first bit highest; none for width 0, over 64, or past the end.
#[unsafe(no_mangle)]
pub extern "C" fn tap_read_bits(data: &[u8], start: u64, width: u64) -> TapBits
    ensures { result ≡ told_bits (bits_read «data».now start width) }
{
    libtap::headers::tap_read_bits(data, start, width)
}

// Is the MPDU's checksum (speeds 0 and 1) or CRC right?
#[unsafe(no_mangle)]
pub extern "C" fn tap_check_crc(mpdu: &[u8], speed: u64) -> bool
    ensures { result ≡ right mpdu.now speed }
{
    libtap::headers::tap_check_crc(mpdu, speed)
}

// The header of an MPDU by a frame text, its rows into the table, the seven numbers of H18 (docs/RULES.md) a row. `region` is an F's code. Refusals 1 to 8.
#[unsafe(no_mangle)]
pub extern "C" fn tap_decode_header(
    text: &[u8],
    mpdu: &[u8],
    region: u64,
    speed: u64,
    rows: &mut [u64],
) -> TapHeader
    ensures { ToldHeader text.now mpdu.now region speed rows.old result rows.new }
{
    libtap::headers::tap_decode_header(text, mpdu, region, speed, rows)
}

// Where the command lies in an MPDU whose header ends at byte `payload`: before the checksum. An empty part where there is no room for one.
#[unsafe(no_mangle)]
pub extern "C" fn tap_command_part(mpdu: &[u8], payload: u64, speed: u64) -> TapPart
    ensures { result ≡ part (span (command_part (length mpdu.now) payload speed)) }
{
    libtap::headers::tap_command_part(mpdu, payload, speed)
}
