// The RSSI: a signed number, which a trailer and a flat row hold as a byte, its two's complement.
ghost use Rattle.std.specs.Prelude.{◌≡◌};
ghost use Rattle.std.specs.Int.{w8};
ghost use Rattle.std.proofs.Common.{of_z, to_z};

// The number that a byte stands for.
pub fn signed(byte: u8) -> i8
    ensures { result ≡ to_z w8 byte }
{
    if byte < 128 {
        byte as i8
    } else {
        !((255 - byte) as i8)
    }
}

// The byte of a number.
pub fn byte_of(rssi: i8) -> u16
    ensures { result ≡ of_z w8 rssi }
{
    if rssi < 0 {
        255 - ((!rssi) as u16)
    } else {
        rssi as u16
    }
}
