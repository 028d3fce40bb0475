// A frame text from the XML that other makers exchange: X11 of docs/RULES.md.
#![tactic(auto, using(crate::proofs::Laws::copy_laws, crate::proofs::Laws::turn_laws))]

ghost use Rattle.std.specs.Prelude.{◌≡◌, None};
ghost use Rattle.xml_document.specs.Document.{verdict, text_of};
ghost use Rattle.xml.specs.Call.{Turns, Copies};

use buffer::write;
use frame_text::check_frame_text;
use refusal::Refusal;
use xml_document::check;
use xml_draft::ROOM;
use xml_reader::put_text;

// Writes a text into the buffer, if the check accepts it and the buffer has room.
fn copy(text: &[u8], buffer: &mut [u8]) -> Result<usize, Refusal>
    ensures { Copies text.now buffer.old result buffer.new }
{
    check_frame_text(text)?;
    write(text, buffer)
}

// The same for the text that a document says, with which nothing is wrong.
fn copy_text(xml: &[u8], buffer: &mut [u8]) -> Result<usize, Refusal>
    requires { verdict xml.now ≡ None }
    ensures { Copies (text_of xml.now) buffer.old result buffer.new }
{
    let mut room = [0u8; ROOM];
    let n = put_text(xml, &mut room);
    if ROOM < n {
        return Err(Refusal::Limit(0));
    }
    copy(&room[..n], buffer)
}

// Writes the frame text that XML says into the buffer, in plain form, and answers its length. Refuses by 14 with the place of the first byte that is
// outside of what is read; then by 1, 2 or 3 as the text that would be written is refused; then by 12. A refusal writes nothing, an answer nothing behind
// the text.
pub fn xml_to_frame_text(xml: &[u8], buffer: &mut [u8]) -> Result<usize, Refusal>
    ensures { Turns xml.now buffer.old result buffer.new }
{
    match check(xml) {
        Some(place) => Err(Refusal::Xml(place)),
        None => copy_text(xml, buffer),
    }
}
