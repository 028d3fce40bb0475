// The calls on values for the benchmark, as a static library: each is made so many times, by a text that is checked once.
#![tactic(auto)]

ghost use Rattle.std.specs.Prelude.{◌≡◌, length, Ok};
ghost use Rattle.frame_text.specs.Rules.{verdict};
ghost use Rattle.command_text.specs.Rules.{verdict as commandVerdict};
ghost use Rattle.command_rules.specs.declared.Offsets.TheVariants.{Answered};
ghost use Rattle.bench_values.specs.Told.{told, header_value, command_value};

use command_rules::Offsets;
use command_text::check_command_text;
use frame_text::check_frame_text;
use header_value::value_accepted;
use refusal::Refusal;

// A text's length, or 100,000 and the refusal's number.
fn tell(written: Result<usize, Refusal>) -> u64
    ensures { result ≡ told written }
{
    match written {
        Ok(n) => n as u64,
        Err(refusal) => 100000 + refusal.number() as u64,
    }
}

#[tactic(auto, using(crate::proofs::Laws::laws))]
fn show_often(
    text: &[u8],
    mpdu: &[u8],
    region: u64,
    speed: u64,
    row: usize,
    buffer: &mut [u8],
    times: u64,
) -> u64
    requires { verdict text.now ≡ Ok tt }
    ensures { result ≡ told (header_value text.now mpdu.now region speed row (length buffer.old)) }
{
    for _ in 1..times {
        let _ = value_accepted(text, mpdu, region, speed, row, buffer);
    }
    tell(value_accepted(text, mpdu, region, speed, row, buffer))
}

// A row of a header as people read it.
#[unsafe(no_mangle)]
pub extern "C" fn bench_header_value(
    text: &[u8],
    mpdu: &[u8],
    region: u64,
    speed: u64,
    row: usize,
    buffer: &mut [u8],
    times: u64,
) -> u64
    ensures { result ≡ told (header_value text.now mpdu.now region speed row (length buffer.old)) }
{
    match check_frame_text(text) {
        Ok(()) => show_often(text, mpdu, region, speed, row, buffer, times),
        Err(refusal) => tell(Err(refusal)),
    }
}

#[tactic(auto, using(crate::proofs::Laws::laws))]
fn show_row_often(text: &[u8], payload: &[u8], row: usize, buffer: &mut [u8], times: u64) -> u64
    requires { commandVerdict text.now ≡ Ok tt }
    ensures { result ≡ told (command_value Answered text.now payload.now row (length buffer.old)) }
{
    for _ in 1..times {
        let _ = command_value::value_accepted(text, payload, Offsets::Answered, row, buffer);
    }
    tell(command_value::value_accepted(text, payload, Offsets::Answered, row, buffer))
}

// A row of a command as people read it.
#[unsafe(no_mangle)]
pub extern "C" fn bench_command_value(
    text: &[u8],
    payload: &[u8],
    row: usize,
    buffer: &mut [u8],
    times: u64,
) -> u64
    ensures { result ≡ told (command_value Answered text.now payload.now row (length buffer.old)) }
{
    match check_command_text(text) {
        Ok(()) => show_row_often(text, payload, row, buffer, times),
        Err(refusal) => tell(Err(refusal)),
    }
}
