// What a line lacks that is refused by 3, or has that its place forbids; and whether it is its level that passes a limit.
ghost use Rattle.std.specs.Prelude.{◌≡◌};
ghost use Rattle.text.specs.Text.{fields};
ghost use Rattle.text_faults.specs.Placement.{too_deep, shift_field, frame_misplaced, command_misplaced};

use readers::line_fields::{field_of, letter_of};

#[derive(Clone, Copy)]
pub enum Misplaced {
    // No line above owns it.
    Owner,
    // No P of the level before stands above it under the same B or H.
    Parent,
    // A P below level 0 has a size path.
    SizePath,
    // A shift is over 7.
    Shift,
}

// Is it the level by which a P line passes a limit, and not the number of P lines?
pub fn is_too_deep(line: &[u8]) -> bool
    ensures { result ≡ too_deep (fields line.now) }
{
    !text::is_number(field_of(line, 1), 7)
}

// What a line of a frame text lacks, which is refused by 3.
pub fn frame_misplaced(line: &[u8]) -> Misplaced
    ensures { result ≡ frame_misplaced (fields line.now) }
{
    if letter_of(line) != b'P' {
        return Misplaced::Owner;
    }
    if text::is_number(field_of(line, 1), 0) {
        return Misplaced::Owner;
    }
    if text::is_missing(field_of(line, 8)) {
        return Misplaced::Parent;
    }
    Misplaced::SizePath
}

// The field of a line with this letter that is a shift; 0 where it has none, as specs/Placement says it.
pub fn shift_field(letter: u8) -> usize
    ensures { result ≡ shift_field letter }
{
    match letter {
        b'G' => 4,
        b'R' => 3,
        b'S' => 2,
        b'U' => 2,
        _ => 0,
    }
}

// What a line of a command text lacks, which is refused by 3.
pub fn command_misplaced(line: &[u8]) -> Misplaced
    ensures { result ≡ command_misplaced (fields line.now) }
{
    let k = shift_field(letter_of(line));
    if k == 0 {
        return Misplaced::Owner;
    }
    if text::is_optional_number(field_of(line, k), 7) {
        return Misplaced::Owner;
    }
    Misplaced::Shift
}
