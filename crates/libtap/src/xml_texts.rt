// The calls that turn a frame text into XML, and XML into a frame text.
ghost use Rattle.libtap.specs.Xml.{ToldXml, ToldText};

use crate::TapAnswer;
use crate::values::tell_written;
use xml::xml_to_frame_text;
use xml_writer::frame_text_to_xml;

// A frame text as XML, into the buffer (X14 of docs/RULES.md). Answers its length, or refusal 1 to 3, 15 or 12.
pub fn tap_frame_text_to_xml(text: &[u8], buffer: &mut [u8]) -> TapAnswer
    ensures { ToldXml text.now buffer.old result buffer.new }
{
    let written = frame_text_to_xml(text, buffer);
    tell_written(written)
}

// The frame text that XML says, into the buffer (X11). Answers its length, or refusal 14, then 1 to 3 for that text, or 12.
pub fn tap_xml_to_frame_text(xml: &[u8], buffer: &mut [u8]) -> TapAnswer
    ensures { ToldText xml.now buffer.old result buffer.new }
{
    let written = xml_to_frame_text(xml, buffer);
    tell_written(written)
}
