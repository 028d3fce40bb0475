// The forms of both definition texts as tables: how many fields follow a letter, and what each of them must be.
// T9 to T15 and T21 to T29 of docs/RULES.md have them in words.
ghost use Rattle.std.specs.Prelude.{◌≡◌};
ghost use Rattle.text_faults.specs.Form.{frame_count, command_count, want_header, want_numbers, want_param, want_parameter, want_group};
ghost use Rattle.text_faults.specs.Form.{want_variant, want_bits, want_array, want_named, want_validation, frame_want, item_want, want_of};

use crate::fault::Want;

// How many fields follow a letter of a frame text; 0 where it is none. No Option, since specs/Form and the theorems on it say 0.
pub fn frame_count(letter: u8) -> usize
    ensures { result ≡ frame_count letter }
{
    match letter {
        b'F' => 2,
        b'B' => 1,
        b'H' => 4,
        b'P' => 8,
        b'V' => 2,
        b'D' => 1,
        b'E' => 2,
        _ => 0,
    }
}

// The same of a command text.
pub fn command_count(letter: u8) -> usize
    ensures { result ≡ command_count letter }
{
    match letter {
        b'Q' => 5,
        b'G' => 4,
        b'R' => 4,
        b'A' => 2,
        b'T' => 2,
        b'S' => 3,
        b'U' => 3,
        b'K' => 2,
        b'M' => 1,
        _ => 0,
    }
}

// T11: an H.
fn want_header(k: usize) -> Want
    ensures { result ≡ want_header k }
{
    match k {
        1 => Want::Number(255),
        2 => Want::OptionalNumber(255),
        3 => Want::Flags,
        _ => Want::Name,
    }
}

// T12: the numbers of a P.
fn want_numbers(k: usize) -> Want
    ensures { result ≡ want_numbers k }
{
    match k {
        1 => Want::Level,
        2 => Want::Number(65535),
        _ => Want::Number(255),
    }
}

// Its words too.
fn want_param(k: usize) -> Want
    ensures { result ≡ want_param k }
{
    match k {
        4 => Want::FrameType,
        5 => Want::Plain,
        6 => Want::OptionalName,
        7 => Want::OptionalPath,
        8 => Want::OptionalPath,
        _ => want_numbers(k),
    }
}

// T21: a Q.
fn want_parameter(k: usize) -> Want
    ensures { result ≡ want_parameter k }
{
    match k {
        1 => Want::Number(1),
        2 => Want::CommandType,
        3 => Want::Name,
        _ => Want::OptionalNumber(255),
    }
}

// T22: a G.
fn want_group(k: usize) -> Want
    ensures { result ≡ want_group k }
{
    match k {
        1 => Want::Name,
        _ => Want::Number(255),
    }
}

// T23: an R.
fn want_variant(k: usize) -> Want
    ensures { result ≡ want_variant k }
{
    match k {
        3 => Want::OptionalNumber(255),
        4 => Want::Number(1),
        _ => Want::Number(255),
    }
}

// T26, T27: an S, a U.
fn want_bits(k: usize) -> Want
    ensures { result ≡ want_bits k }
{
    match k {
        1 => Want::Number(255),
        2 => Want::OptionalNumber(255),
        _ => Want::Name,
    }
}

// T24: an A.
fn want_array(k: usize) -> Want
    ensures { result ≡ want_array k }
{
    match k {
        1 => Want::Number(255),
        _ => Want::Number(1),
    }
}

// T15, T25, T28: a number of at most this, and then a name, in an E, a T, a K.
fn want_named(k: usize, most: u16) -> Want
    ensures { result ≡ want_named k most }
{
    match k {
        1 => Want::Number(most),
        _ => Want::Name,
    }
}

// T13: a V.
fn want_validation(k: usize) -> Want
    ensures { result ≡ want_validation k }
{
    match k {
        1 => Want::Path,
        _ => Want::Number(65535),
    }
}

fn frame_want(letter: u8, k: usize) -> Want
    ensures { result ≡ frame_want letter k }
{
    match letter {
        b'H' => want_header(k),
        b'P' => want_param(k),
        b'V' => want_validation(k),
        b'D' => Want::Name,
        b'E' => want_named(k, 65535),
        _ => Want::Number(255),
    }
}

fn item_want(letter: u8, k: usize) -> Want
    ensures { result ≡ item_want letter k }
{
    match letter {
        b'R' => want_variant(k),
        b'A' => want_array(k),
        b'T' => want_named(k, 255),
        b'S' => want_bits(k),
        b'U' => want_bits(k),
        b'K' => want_named(k, 255),
        b'M' => Want::OptionalNumber(255),
        _ => frame_want(letter, k),
    }
}

// What field k after a letter must be, from 1. No letter belongs to both texts.
pub fn want_of(letter: u8, k: usize) -> Want
    ensures { result ≡ want_of letter k }
{
    match letter {
        b'Q' => want_parameter(k),
        b'G' => want_group(k),
        _ => item_want(letter, k),
    }
}
