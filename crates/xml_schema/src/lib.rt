// The elements and attributes of the schema: X3 of docs/RULES.md.
#![tactic(auto, using(crate::proofs::Laws::laws))]

ghost use Rattle.std.specs.Prelude.{◌≡◌, ◌≤◌, length, drop};
ghost use Rattle.text.specs.Text.{fields, same};
ghost use Rattle.readers.specs.Fields.{IsField};
ghost use Rattle.xml_schema.specs.Schema.{elements, element_of, table, letter_of, form_of, name_of, form_in, parent_of, Follows};

use readers::line_fields::{field_of, find_piece};
use text::{Part, find, find_word, is_same};

// How many elements there are, and the number of what is none. No Option: a place is such a number too, and the two are compared.
pub const COUNT: usize = 13;

// The number of the root.
pub const ROOT: usize = 0;

// The number of Param, the only element that may stand in itself.
pub const PARAM: usize = 4;

// The places that are in no element: before the root, behind it, and nowhere.
pub const BEFORE: usize = 13;

pub const BEHIND: usize = 14;

pub const NOWHERE: usize = 15;

// The form of words.
pub const WORDS: u8 = b'w';

// The form of words that may be missing.
pub const OPTIONAL_WORDS: u8 = b'o';

// The form of a number in decimal.
pub const NUMBER: u8 = b'n';

// The form of such a number that may be missing.
pub const OPTIONAL_NUMBER: u8 = b'm';

// The form of a number in hexadecimal or decimal.
pub const HEX_NUMBER: u8 = b'x';

// The form of a flag whose digit begins a field.
pub const FLAG: u8 = b'f';

// The form of a flag whose digit goes on with the field before it.
pub const FURTHER_FLAG: u8 = b'g';

// The forms below it are digits: no line has a place for the attribute.
pub const PAST_DIGITS: u8 = b'9' + 1;

// The place in which each element stands.
const PARENTS: [usize; 13] = [13, 0, 0, 0, 15, 3, 0, 6, 2, 2, 2, 2, 2];

// The names of the elements, by number.
pub const ELEMENTS: [u8; 128] =
    *b"FrameDefinition RadioFrequency BaseHeader Header Param Validation DefineSet Define HomeId Source HeaderType IsLTX SequenceNumber";

// A row for each element: its line's letter, or `-`, and an entry for each attribute, the form of its value and its name.
pub const TABLE: [u8; 274] = *b"-
F\tnCode\tnBaseHeader\t1Name\t1Text
B\tnKey\t1Name\t1Text
H\tnKey\tmBaseHeaderKey\tfIsAck\tgIsRouted\tgIsMulticast\tgIsError\twName\t4Text
P\tnOrder\tnBits\twType\twName\toDefines\toOptRef\toSizeRef\t5Text
V\twParamName\txParamHexValue
D\twName
E\txKey\twText\t2Name
-\t0Ref
-\t0Ref
-\t0Ref
-\t0Ref
-\t0Ref";

// The number of the element that n names.
pub fn element_of(n: &[u8]) -> usize
    ensures { result ≡ element_of n.now }
{
    find_word(&ELEMENTS, n)
}

// Where the name of element k stands among them.
pub fn name_of(k: usize) -> Part
    ensures { IsField 32 k elements result }
{
    find_piece(&ELEMENTS, 32, k)
}

// Where the row of element k stands in the table.
pub fn row_of(k: usize) -> Part
    ensures { IsField 10 k table result }
{
    find_piece(&TABLE, 10, k)
}

// The form of the value, by an entry; the letter, by the first field of a row.
pub fn form_of(e: &[u8]) -> u8
    ensures { result ≡ form_of e.now }
{
    if e.len() == 0 {
        return 0;
    }
    e[0]
}

// Where the name begins in an entry.
pub fn name_start(e: &[u8]) -> usize
    ensures { (drop result e.now ≡ name_of e.now) × (result ≤ length e.now) }
{
    if e.len() == 0 {
        return 0;
    }
    1
}

// The letter of the line of element k, or `-`.
pub fn letter_of(k: usize) -> u8
    ensures { result ≡ letter_of k }
{
    let row = row_of(k);
    let a = row.start;
    let e = a + row.len;
    form_of(field_of(&TABLE[a..e], 0))
}

// What stands behind the first field of a row?
pub fn next_entry(row: &[u8]) -> Option<(usize, usize)>
    ensures { Follows row.now result }
{
    let e = find(row, 9);
    if e == row.len() {
        return None;
    }
    let len = find(&row[e + 1..], 9);
    Some((e + 1, len))
}

// Is n the name in an entry?
fn is_entry(e: &[u8], n: &[u8]) -> bool
    ensures { result ≡ same n.now (name_of e.now) }
{
    let a = name_start(e);
    is_same(n, &e[a..])
}

// The form of the value of the attribute n, by a row, or 0 where there is no such attribute.
pub fn form_in(row: &[u8], n: &[u8]) -> u8
    ensures { result ≡ form_in (drop 1 (fields row.now)) n.now }
{
    let mut rest = row;
    while let Some((a, len)) = next_entry(rest) {
        rest = &rest[a..];
        let entry = &rest[..len];
        if is_entry(entry, n) {
            return form_of(entry);
        }
    }
    0
}

// The place in which element k stands.
pub fn parent_of(k: usize) -> usize
    ensures { result ≡ parent_of k }
{
    if k < COUNT {
        return PARENTS[k];
    }
    NOWHERE
}
