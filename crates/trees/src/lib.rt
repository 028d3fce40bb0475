// A frame's bytes, the picture of its bits, and its fields and parameters as trees.
#![tactic(auto)]

pub mod field_tree;
pub mod hex_dump;
pub mod node_lines;
pub mod param_tree;
pub mod ruler;
