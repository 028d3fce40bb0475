// The checksum and the CRC of ITU-T G.9959, and whether an MPDU ends in the one that its speed asks for.
#![tactic(auto, using(crate::proofs::Laws::laws))]

mod table;

ghost use Rattle.std.specs.Prelude.{◌≡◌, ◌<◌};
ghost use Rattle.crc.specs.Crc.{checksum, crc, right};
ghost use Rattle.crc.specs.Register.{crc_byte, TurnTable};

use crate::table::TURNED;

// XOR of all bytes from 0xFF.
pub fn checksum8(body: &[u8]) -> u8
    ensures { result ≡ checksum body.now }
{
    let mut sum: u8 = 0xFF;
    for b in body {
        sum ^= *b;
    }
    sum
}

// The register after one byte more: eight turns at once.
fn crc_byte(turned: &[u16; 256], r: u16, b: u8) -> u16
    requires { TurnTable turned.now }
    ensures { (result ≡ crc_byte r b) × (b < 256) }
{
    let at = usize::from((r >> 8) ^ u16::from(b));
    turned[at] ^ (r << 8)
}

fn crc_by(turned: &[u16; 256], body: &[u8]) -> u16
    requires { TurnTable turned.now }
    ensures { result ≡ crc body.now }
{
    let mut r: u16 = 0x1D0F;
    for b in body {
        r = crc_byte(turned, r, *b);
    }
    r
}

// Polynomial 0x1021 from 0x1D0F.
pub fn crc16(body: &[u8]) -> u16
    ensures { result ≡ crc body.now }
{
    crc_by(&TURNED, body)
}

// Is the MPDU right at its speed? It ends in a checksum at speeds 0 and 1, in a CRC above.
pub fn check_crc(mpdu: &[u8], speed: u64) -> bool
    ensures { result ≡ right mpdu.now speed }
{
    let n = mpdu.len();
    if speed <= 1 {
        if n <= 1 {
            return false;
        }
        let last = n - 1;
        let sum = checksum8(&mpdu[..last]);
        return sum == mpdu[last];
    }
    if n <= 2 {
        return false;
    }
    let high = n - 2;
    let last = n - 1;
    let sum = crc16(&mpdu[..high]);
    sum == u16::from_be_bytes([mpdu[high], mpdu[last]])
}
