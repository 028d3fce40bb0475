// The tap's calls as a static library, for C and Rust to link. libtap.h declares them for C. Each is the call of libtap of its name, with its contract. The program
// `replay` answers by those calls, so that what is compared with the Rust is what C has.
#![tactic(auto)]

pub mod captures;
pub mod commands;
pub mod frames;
pub mod headers;
pub mod listings;
pub mod nodes;
pub mod orders;
pub mod texts;
pub mod values;
pub mod xml_texts;
