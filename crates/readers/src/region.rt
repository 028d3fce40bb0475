// PTI regions and F codes are numbered apart: this is the table of definitions/README.md that leads from one to the other.
#![tactic(auto, using(crate::proofs::region::Laws::code_none))]

ghost use Rattle.std.specs.Prelude.{◌≡◌};
ghost use Rattle.readers.specs.Region.{code_of};

// The F code of a PTI region. One that there isn't has a code that no F line has.
pub fn frame_code(region: u64) -> u64
    ensures { result ≡ code_of region }
{
    match region {
        1 => 0,
        2 => 1,
        3 => 2,
        4 => 3,
        5 | 6 => 5,
        7 => 32,
        8 => 7,
        9 => 6,
        10 => 33,
        11 => 8,
        12..=14 => 9,
        15..=17 => 11,
        _ => 256,
    }
}
