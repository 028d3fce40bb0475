// The parameter walk for the benchmark, as a static library: each call is made so many times, so that what it costs can be told from what comes before it.
#![tactic(auto)]

ghost use Rattle.std.specs.Prelude.{◌≡◌, length, Ok};
ghost use Rattle.command_text.specs.Rules.{verdict};
ghost use Rattle.command_rules.specs.declared.Offsets.TheVariants.{Answered};
ghost use Rattle.command.specs.Answer.{told, answer_of};
ghost use Rattle.bench_commands.specs.Told.{in_one};

use command::{Offsets, Rows, decode_accepted, decode_params};
use command_text::check_command_text;
use refusal::Refusal;

// An answer's rows, or a million and the refusal's number.
fn tell(params: Result<Rows, Refusal>) -> u64
    ensures { result ≡ in_one (told params) }
{
    match params {
        Ok(rows) => rows.count as u64,
        Err(refusal) => 1000000 + refusal.number() as u64,
    }
}

// The public call, which checks the text.
#[tactic(auto, using(crate::proofs::Laws::laws))]
#[unsafe(no_mangle)]
pub extern "C" fn bench_decode_params(
    text: &[u8],
    payload: &[u8],
    rows: &mut [u64],
    times: u64,
) -> u64
    ensures { result ≡ in_one (answer_of Answered text.now payload.now (length rows.old)) }
{
    for _ in 1..times {
        let _ = decode_params(text, payload, Offsets::Answered, rows);
    }
    tell(decode_params(text, payload, Offsets::Answered, rows))
}

// The call by an accepted text.
#[tactic(auto, using(crate::proofs::Laws::laws))]
fn decode_often(text: &[u8], payload: &[u8], rows: &mut [u64], times: u64) -> u64
    requires { verdict text.now ≡ Ok tt }
    ensures { result ≡ in_one (answer_of Answered text.now payload.now (length rows.old)) }
{
    for _ in 1..times {
        let _ = decode_accepted(text, payload, Offsets::Answered, rows);
    }
    tell(decode_accepted(text, payload, Offsets::Answered, rows))
}

// The call by an accepted text, which is checked once.
#[unsafe(no_mangle)]
pub extern "C" fn bench_decode_params_accepted(
    text: &[u8],
    payload: &[u8],
    rows: &mut [u64],
    times: u64,
) -> u64
    ensures { result ≡ in_one (answer_of Answered text.now payload.now (length rows.old)) }
{
    match check_command_text(text) {
        Ok(()) => decode_often(text, payload, rows, times),
        Err(refusal) => tell(Err(refusal)),
    }
}
