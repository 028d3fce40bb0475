// Plain form, the order of lines that XML keeps: X12 of docs/RULES.md.
#![tactic(auto, using(crate::proofs::Laws::laws))]

ghost use Rattle.std.specs.Prelude.{◌≡◌, ◌<◌, MatchOption};
ghost use Rattle.plain_form.specs.PlainForm.{stands, farther, out_of_order};

use readers::line_fields::letter_of;
use text::find;

// May a line of this letter stand there?
fn is_in_order(far: u8, letter: u8) -> bool
    ensures { result ≡ stands far letter }
{
    match letter {
        b'F' => far == 0,
        b'B' => far <= 1,
        b'H' => far <= 3,
        b'P' => far != 3,
        _ => true,
    }
}

// How far the lines have come with it.
fn go_farther(far: u8, letter: u8) -> u8
    ensures { result ≡ farther far letter }
{
    match letter {
        b'F' => 0,
        b'B' => 1,
        b'H' => 2,
        b'V' => 3,
        b'D' => 4,
        _ => far,
    }
}

// The first line that is out of plain form.
pub fn first_misplaced(text: &[u8]) -> Option<usize>
    ensures { let t = text.now in MatchOption result (out_of_order t ≡ 0) (λ n. (out_of_order t ≡ n) × (0 < n)) }
{
    let mut at = 0;
    let mut line: usize = 1;
    let mut far: u8 = 0;
    loop {
        let rest = &text[at..];
        let e = find(rest, 10);
        if e == rest.len() {
            return None;
        }
        let letter = letter_of(&rest[..e]);
        if !is_in_order(far, letter) {
            return Some(line);
        }
        far = go_farther(far, letter);
        at = at + e + 1;
        line += 1;
    }
}
