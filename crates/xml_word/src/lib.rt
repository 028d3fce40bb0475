// The words `xml` and `text` of tap: a frame text as XML, and XML as a frame text. Where it goes well, the output is that and a last line, which bin/tap takes
// off.
#![tactic(auto, using(crate::proofs::Laws::laws))]

pub mod fault_words;
pub mod room;
pub mod text_file;
pub mod xml_file;
