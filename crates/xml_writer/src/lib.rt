// A frame text as XML: X14 of docs/RULES.md.
#![tactic(auto, using(crate::proofs::Laws::laws))]

ghost use Rattle.std.specs.Prelude.{◌≤◌, length};
ghost use Rattle.text.specs.Judge.{most_bytes};
ghost use Rattle.append.specs.Append.{Room};
ghost use Rattle.buffer.specs.Buffer.{Writes};
ghost use Rattle.xml_elements.specs.Elements.{xml_of};
ghost use Rattle.xml_writer.specs.Writer.{Plainly, WritesXml};

use frame_text::check_frame_text;
use plain_form::first_misplaced;
use refusal::Refusal;
use xml_elements::append_xml;

// The XML of a text, if the buffer has room for all of it, which is counted first; else refusal 12.
fn write_all(text: &[u8], buffer: &mut [u8]) -> Result<usize, Refusal>
    requires { Room 0 (xml_of text.now) }
    ensures { Writes (xml_of text.now) buffer.old result buffer.new }
{
    let mut none = [0u8; 0];
    let length = append_xml(text, &mut none);
    if buffer.len() < length {
        return Err(Refusal::MoreBytes(length));
    }
    append_xml(text, buffer);
    Ok(length)
}

// The same for a text that may be out of plain form: refusal 15.
fn write_plain(text: &[u8], buffer: &mut [u8]) -> Result<usize, Refusal>
    requires { length text.now ≤ most_bytes }
    ensures { Plainly text.now buffer.old result buffer.new }
{
    match first_misplaced(text) {
        Some(line) => Err(Refusal::NotPlain(line)),
        None => write_all(text, buffer),
    }
}

// Writes a frame text as XML into the buffer and answers its length, or refuses. A refusal writes nothing, an answer nothing behind the XML.
pub fn frame_text_to_xml(text: &[u8], buffer: &mut [u8]) -> Result<usize, Refusal>
    ensures { WritesXml text.now buffer.old result buffer.new }
{
    check_frame_text(text)?;
    write_plain(text, buffer)
}
