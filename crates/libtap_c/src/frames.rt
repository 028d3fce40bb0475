// The calls on payloads and records.
ghost use Rattle.std.specs.Prelude.{◌≡◌};
ghost use Rattle.radio.specs.Speed.{rate_of};
ghost use Rattle.radio.specs.Beam.{beams_of};
ghost use Rattle.records.specs.Records.{said_of};
ghost use Rattle.frame.specs.Frame.{parsed_of, reading_by};
ghost use Rattle.libtap.specs.Answers.{answered, ToldBody, told_frame, Told};

use libtap::TapAnswer;
use libtap::frames::{TapFrame, TapPart};

// The rate of a channel in a PTI region: 0 is 9.6 kbit/s, 1 is 40, 2 is 100, 3 is Long Range.
#[unsafe(no_mangle)]
pub extern "C" fn tap_speed_for(channel: usize, region: usize) -> u8
    ensures { result ≡ rate_of channel region }
{
    libtap::frames::tap_speed_for(channel, region)
}

// How often a beam repeats in the middle bytes of a record.
#[unsafe(no_mangle)]
pub extern "C" fn tap_beam_count(rate: u8, middle: &[u8]) -> usize
    ensures { result ≡ beams_of rate middle.now }
{
    libtap::frames::tap_beam_count(rate, middle)
}

// How many bodies a payload has, or refusal 4.
#[unsafe(no_mangle)]
pub extern "C" fn tap_count_records(payload: &[u8]) -> TapAnswer
    ensures { result ≡ answered (said_of payload.now) }
{
    libtap::frames::tap_count_records(payload)
}

// Where body k of a payload lies, from 0; an empty part where there is none or the payload is too long.
#[unsafe(no_mangle)]
pub extern "C" fn tap_record_body(payload: &[u8], k: usize) -> TapPart
    ensures { ToldBody payload.now k result }
{
    libtap::frames::tap_record_body(payload, k)
}

// The frame of a single record's body, which that firmware wrote, with beams as a family of their own or not, or refusal 13, 4 or 9.
#[unsafe(no_mangle)]
pub extern "C" fn tap_parse_record(body: &[u8], firmware: usize, family: bool) -> TapFrame
    ensures { result ≡ told_frame (parsed_of firmware (reading_by family) body.now) }
{
    libtap::frames::tap_parse_record(body, firmware, family)
}

// Every frame of a payload, which that firmware wrote, with beams as a family of their own or not, into a table, the thirteen numbers of F17, FP1 and BF2
// (docs/RULES.md) a row. Answers the rows, or refusal 13, 4 or 8.
#[unsafe(no_mangle)]
pub extern "C" fn tap_parse_payload(
    payload: &[u8],
    firmware: usize,
    family: bool,
    table: &mut [u16],
) -> TapAnswer
    ensures { Told firmware (reading_by family) payload.now table.old result table.new }
{
    libtap::frames::tap_parse_payload(payload, firmware, family, table)
}
