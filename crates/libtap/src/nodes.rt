// The calls on the nodes that a bit mask addresses.
ghost use Rattle.std.specs.Prelude.{◌≡◌};
ghost use Rattle.command.specs.Answer.{offsets_by};
ghost use Rattle.libtap.specs.Nodes.{told_listed, ToldMask, ToldHeaderNodes, ToldCommandNodes};

use crate::{TapAnswer, answer, refuse};
use command::offsets_by;
use command_nodes::command_nodes;
use header_nodes::header_nodes;
use node_mask::mask_nodes;
use refusal::Refusal;

fn tell_listed(listed: Result<usize, Refusal>) -> TapAnswer
    ensures { result ≡ told_listed listed }
{
    match listed {
        Ok(n) => answer(n as u64),
        Err(refusal) => refuse(refusal),
    }
}

// The nodes whose bits are set in a mask, rising, into the table. Answers how many, or refusal 4 or 8.
pub fn tap_mask_nodes(mask: &[u8], nodes: &mut [u16]) -> TapAnswer
    ensures { ToldMask mask.now nodes.old result nodes.new }
{
    let listed = mask_nodes(mask, nodes);
    tell_listed(listed)
}

// The nodes of a row of the header that `tap_decode_header` answers, if it is a mask (BM2 of docs/RULES.md). Answers how many, or refusal 1 to 7, 11
// or 8.
pub fn tap_header_nodes(
    text: &[u8],
    mpdu: &[u8],
    region: u64,
    speed: u64,
    row: usize,
    nodes: &mut [u16],
) -> TapAnswer
    ensures { ToldHeaderNodes text.now mpdu.now region speed row nodes.old result nodes.new }
{
    let listed = header_nodes(text, mpdu, region, speed, row, nodes);
    tell_listed(listed)
}

// The nodes of a row of those that `tap_decode_params` writes, if it is a mask. Answers how many, or refusal 1 to 5, 11 or 8.
pub fn tap_command_nodes(
    text: &[u8],
    payload: &[u8],
    position: bool,
    row: usize,
    nodes: &mut [u16],
) -> TapAnswer
    ensures { ToldCommandNodes (offsets_by position) text.now payload.now row nodes.old result nodes.new }
{
    let listed = command_nodes(text, payload, offsets_by(position), row, nodes);
    tell_listed(listed)
}
