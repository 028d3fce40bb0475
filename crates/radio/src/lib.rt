// What the radio's numbers stand for: the rate of a channel in a region, the RSSI's byte, and how often a beam repeats.
#![tactic(auto, using(crate::proofs::Laws::laws))]

pub mod beam;
pub mod rssi;
pub mod speed;
