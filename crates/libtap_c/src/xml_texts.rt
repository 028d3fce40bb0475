// The calls that turn a frame text into XML, and XML into a frame text.
ghost use Rattle.libtap.specs.Xml.{ToldXml, ToldText};

use libtap::TapAnswer;

// A frame text as XML, into the buffer (X14 of docs/RULES.md). Answers its length, or refusal 1 to 3, 15 or 12.
#[unsafe(no_mangle)]
pub extern "C" fn tap_frame_text_to_xml(text: &[u8], buffer: &mut [u8]) -> TapAnswer
    ensures { ToldXml text.now buffer.old result buffer.new }
{
    libtap::xml_texts::tap_frame_text_to_xml(text, buffer)
}

// The frame text that XML says, into the buffer (X11). Answers its length, or refusal 14, then 1 to 3 for that text, or 12.
#[unsafe(no_mangle)]
pub extern "C" fn tap_xml_to_frame_text(xml: &[u8], buffer: &mut [u8]) -> TapAnswer
    ensures { ToldText xml.now buffer.old result buffer.new }
{
    libtap::xml_texts::tap_xml_to_frame_text(xml, buffer)
}
