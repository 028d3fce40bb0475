// What a Q takes and how often a group repeats, by the entries already answered. Counterpart of `is_present` and `variable_len` of
// command_class/decode.rs.
// Of an entry later lengths, conditions and counts want only whether it has a value, and its low byte: `es` are the first entries of a list, one number
// each. A number of a definition that may be missing is NO_NUMBER of command_class where it is.
#![tactic(auto, using(crate::proofs::Laws::laws))]

ghost use Rattle.std.specs.Prelude.{◌≡◌};
ghost use Rattle.command_lengths.specs.Entries.{earlier, entries, given};
ghost use Rattle.command_rules.specs.Lengths.{meets, holds, masked, by_entry, wanted, cut, size_of, counted, repeats, entry_at};

use command_rules::{BitShift, Earlier, Length, Rule, Wanted};

// How an entry without value is kept: one with a value by its low byte.
pub const NO_VALUE: u16 = 256;

// How an entry is kept that no offset finds.
pub const NO_ENTRY: u16 = 257;

fn earlier_of(e: u16) -> Earlier
    ensures { result ≡ earlier e }
{
    if e < NO_VALUE {
        return Earlier::Value(e);
    }
    if e == NO_VALUE {
        return Earlier::NoValue;
    }
    Earlier::NoEntry
}

// The entry that an offset counts to.
fn entry_at(es: &[u16], offset: u16) -> Earlier
    ensures { result ≡ entry_at (entries es.now) offset }
{
    if 255 < offset {
        return Earlier::NoEntry;
    }
    let k = offset as usize;
    if es.len() <= k {
        return Earlier::NoEntry;
    }
    earlier_of(es[k])
}

fn does_meet(e: Earlier, mask: u16) -> bool
    ensures { result ≡ meets mask e }
{
    matches!(e, Earlier::Value(b) if b & mask != 0)
}

// Does the condition of a Q hold?
pub fn is_present(offset: u16, mask: u16, es: &[u16]) -> bool
    ensures { result ≡ holds (given offset) (given mask) (entries es.now) }
{
    if 255 < offset {
        return true;
    }
    if 255 < mask {
        return true;
    }
    does_meet(entry_at(es, offset), mask)
}

// A number masked and shifted.
pub fn mask_shift(b: u16, mask: u16, shift: BitShift) -> u16
    ensures { result ≡ masked b mask shift }
{
    if 15 < shift.0 {
        return 0;
    }
    (b & mask) >> shift.0
}

fn entry_len(e: Earlier, mask: u16, shift: BitShift) -> Wanted
    ensures { result ≡ by_entry mask shift e }
{
    match e {
        Earlier::Value(b) => Wanted::Exactly(mask_shift(b, mask, shift)),
        Earlier::NoValue => Wanted::Exactly(mask_shift(0, mask, shift)),
        Earlier::NoEntry => Wanted::Rest,
    }
}

// How many bytes a Q wants.
pub fn variable_len(rule: Rule, es: &[u16]) -> Wanted
    ensures { result ≡ wanted rule (entries es.now) }
{
    match rule {
        Rule::Fixed(n) => Wanted::Exactly(n),
        Rule::Open => Wanted::Rest,
        Rule::Counted {
            offset,
            mask,
            shift,
        } => entry_len(entry_at(es, offset), mask, shift),
    }
}

// A length, cut to what remains.
fn cut_len(wanted: Wanted, rest: usize) -> Length
    ensures { result ≡ cut wanted rest }
{
    let Wanted::Exactly(n) = wanted else {
        return Length {
            taken: rest,
            lacking: 0,
        };
    };
    let bytes = n as usize;
    if bytes <= rest {
        return Length {
            taken: bytes,
            lacking: 0,
        };
    }
    Length {
        taken: rest,
        lacking: bytes - rest,
    }
}

// The length of a Q, of the bytes that remain, if it exists.
pub fn size_of(offset: u16, mask: u16, rule: Rule, es: &[u16], rest: usize) -> Option<Length>
    ensures { result ≡ size_of (given offset) (given mask) rule (entries es.now) rest }
{
    if rest == 0 {
        return None;
    }
    if is_present(offset, mask, es) {
        let length = cut_len(variable_len(rule, es), rest);
        if length.taken == 0 {
            return None;
        }
        return Some(length);
    }
    None
}

fn entry_count(e: Earlier, mask: u16, shift: BitShift) -> u16
    ensures { result ≡ counted mask shift e }
{
    match e {
        Earlier::Value(b) => mask_shift(b, mask, shift),
        Earlier::NoValue => 0,
        Earlier::NoEntry => 0,
    }
}

// How often a group repeats at most.
pub fn repeats_of(offset: u16, mask: u16, shift: BitShift, es: &[u16], rest: usize) -> usize
    ensures { result ≡ repeats offset mask shift (entries es.now) rest }
{
    if offset == 255 {
        return rest;
    }
    if mask == 0 {
        return rest;
    }
    entry_count(entry_at(es, offset), mask, shift) as usize
}
