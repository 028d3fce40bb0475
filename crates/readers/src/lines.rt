// Lines of a text, as the tables of rows number them. Any bytes are a text here: a line that is not there has no bytes.
#![tactic(auto, using(crate::proofs::lines::Laws::next_laws, crate::proofs::lines::Laws::line_laws, crate::proofs::lines::Laws::seeks_laws, crate::proofs::lines::Laws::counts_laws))]

ghost use Rattle.std.specs.Prelude.{◌≡◌, [], ◌∷◌, ◌≤◌, ◌<◌, length, get_or};
ghost use Rattle.readers.specs.Lines.{line_at, lines_in, of_kind, Follows};

use text::find;

// Where the line after the one at a place begins; after the last, the text's end.
pub fn next_line(text: &[u8], at: usize) -> usize
    requires { at < length text.now }
    ensures { (at < result) × (result ≤ length text.now) × Follows text.now at result }
{
    let rest = &text[at..];
    let n = find(rest, b'\n');
    if n < rest.len() {
        at + n + 1
    } else {
        text.len()
    }
}

// The line that begins at a place, without its end.
pub fn line(text: &[u8], at: usize) -> &[u8]
    ensures { result.now ≡ line_at text.now at }
{
    if text.len() < at {
        return &text[..0];
    }
    let rest = &text[at..];
    let n = find(rest, b'\n');
    &rest[..n]
}

// Line n of a kind, from 0.
pub fn find_line(text: &[u8], kind: u8, n: usize) -> &[u8]
    ensures { result.now ≡ get_or (of_kind kind (lines_in text.now)) n [] }
{
    let mut at: usize = 0;
    let mut left = n;
    while at < text.len() {
        if text[at] == kind {
            if left == 0 {
                return line(text, at);
            }
            left -= 1;
        }
        at = next_line(text, at);
    }
    &text[..0]
}

// Line n, from 1.
pub fn numbered_line(text: &[u8], n: u64) -> &[u8]
    ensures { result.now ≡ get_or ([] ∷ lines_in text.now) n [] }
{
    if n == 0 {
        return &text[..0];
    }
    let mut at: usize = 0;
    let mut left = n - 1;
    while at < text.len() {
        if left == 0 {
            return line(text, at);
        }
        left -= 1;
        at = next_line(text, at);
    }
    &text[..0]
}
