// The index of the commands that ship: a line `C`, class, command, name, file for each, fields parted by tabs.
#![tactic(auto, using(crate::proofs::catalog::Laws::laws))]

ghost use Rattle.std.specs.Prelude.{◌≡◌};
ghost use Rattle.text.specs.Text.{field, fields};
ghost use Rattle.readers.specs.Lines.{lines_in};
ghost use Rattle.readers.specs.Catalog.{has_numbers, is_of, first_of};

use crate::line_fields::field_of;
use crate::lines::{line, next_line};
use crate::numeral::is_number;
use text::is_same;

// Has a line the numbers of a class and a command?
fn has_numbers(line: &[u8], class: u8, command: u8) -> bool
    ensures { result ≡ has_numbers class command line.now }
{
    is_number(field_of(line, 1), usize::from(class))
        && is_number(field_of(line, 2), usize::from(command))
}

// Is this their line?
fn is_of(line: &[u8], class: u8, command: u8) -> bool
    ensures { result ≡ is_of class command line.now }
{
    is_same(field_of(line, 0), b"C") && has_numbers(line, class, command)
}

// The first line of a class and a command; no bytes where there is none.
pub fn find_command(index: &[u8], class: u8, command: u8) -> &[u8]
    ensures { result.now ≡ first_of class command (lines_in index.now) }
{
    let mut at: usize = 0;
    while at < index.len() {
        let found = line(index, at);
        if is_of(found, class, command) {
            return found;
        }
        at = next_line(index, at);
    }
    &index[..0]
}

// The command's name, by its line.
pub fn name(line: &[u8]) -> &[u8]
    ensures { result.now ≡ field 3 (fields line.now) }
{
    field_of(line, 3)
}

// The file with its parameters.
pub fn file(line: &[u8]) -> &[u8]
    ensures { result.now ≡ field 4 (fields line.now) }
{
    field_of(line, 4)
}
