// The tap's calls as C has them, for Rattle's crates: each answers in numbers, and in structs of C's layout. The static library libtap_c exports them for C and
// Rust to link. The program `replay` answers by the same calls, so that what is compared with the Rust is what C has.
#![tactic(auto)]

pub mod captures;
pub mod commands;
pub mod frames;
pub mod headers;
pub mod listings;
pub mod nodes;
pub mod orders;
pub mod texts;
pub mod values;
pub mod xml_texts;

ghost use Rattle.std.specs.Prelude.{◌≡◌};
ghost use Rattle.refusal.specs.Refusal.{number_of, carried_by};
ghost use Rattle.libtap.specs.Answers.{answered};

use refusal::Refusal;

// An answer as C has it: `refusal` is 0 and `value` the number that the call answers, or `refusal` is one of R1 to R9, TO5, BM3, U5, FV2, LS2, X1 and X2
// (docs/RULES.md) and `value` what it carries.
#[repr(C)]
#[derive(Clone, Copy)]
pub struct TapAnswer {
    pub refusal: u64,
    pub value: u64,
}

// The number that a call answers.
fn answer(value: u64) -> TapAnswer
    ensures { result ≡ answered (0, value) }
{
    TapAnswer { refusal: 0, value }
}

// A refusal: its number, and what it carries.
fn refuse(refusal: Refusal) -> TapAnswer
    ensures { result ≡ answered (number_of refusal, carried_by refusal) }
{
    TapAnswer {
        refusal: refusal.number() as u64,
        value: refusal.carried() as u64,
    }
}
