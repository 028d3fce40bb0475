// Where the command of an MPDU lies: behind its header, before its checksum (H26 of docs/RULES.md).
#![tactic(auto, using(crate::proofs::Laws::laws))]

ghost use Rattle.std.specs.Prelude.{◌≡◌, ◌+◌, ◌≤◌, length};
ghost use Rattle.records.specs.Records.{PartOf};
ghost use Rattle.command_part.specs.Part.{sum_bytes, command_part, span};

// A part of an MPDU.
#[derive(Clone, Copy)]
pub struct Part {
    pub start: usize,
    pub length: usize,
}

// The bytes of the checksum at a speed.
fn sum_bytes(speed: u64) -> u64
    ensures { result ≡ sum_bytes speed }
{
    if speed < 2 { 1 } else { 2 }
}

// Where the command lies in an MPDU of so many bytes whose header ends at `offset`, the payload offset of its answer; an empty part at its start where
// header and checksum leave no room for one.
pub fn find_command(mpdu: usize, offset: u64, speed: u64) -> Part
    ensures value { result ≡ command_part mpdu offset speed }
    ensures length_bound { result.start + result.length ≤ mpdu }
{
    let sum = sum_bytes(speed);
    let all = mpdu as u64;
    if all < sum {
        return Part {
            start: 0,
            length: 0,
        };
    }
    let end = all - sum;
    if end < offset {
        return Part {
            start: 0,
            length: 0,
        };
    }
    Part {
        start: offset as usize,
        length: (end - offset) as usize,
    }
}

// The same as a part of the MPDU itself.
pub fn command_part(mpdu: &[u8], offset: u64, speed: u64) -> &[u8]
    ensures { PartOf mpdu.entry result (span (command_part (length mpdu.now) offset speed)) }
{
    let part = find_command(mpdu.len(), offset, speed);
    let start = part.start;
    let end = start + part.length;
    &mpdu[start..end]
}
