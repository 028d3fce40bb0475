// Extraction of Z-Wave frames from PTI (Packet Trace Interface) payloads: F1 to F18 of docs/RULES.md.
// The counterpart of zniff-rs's pti/mod.rs and pti/speed.rs, whose calls are all to be had here. A payload holds records between
// brackets (crate `records`); a record's body holds at most one frame (crate `frame`), whose MPDU stays a part of the payload; its rate
// and its beams are the radio's (crate `radio`). What is left to this crate is every frame of a payload, as rows of a table.
#![tactic(auto, using(crate::proofs::Laws::laws))]

pub mod payload;

pub use frame::{Reading, parse_record, reading_by};
pub use payload::parse_payload;
pub use radio::beam::beam_count;
pub use radio::speed;
pub use radio::speed::speed_for;
pub use records::{count_records, record_body};
