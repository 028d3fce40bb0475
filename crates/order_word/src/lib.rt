// The words `overlaps` and `sort` of tap: does the order of a frame text's headers matter, and the text with them sorted.
#![tactic(auto, using(crate::proofs::Laws::length_sorted))]

pub mod moved;
pub mod overlaps_file;
pub mod sort_file;
