// The word `frames`: the frames of a capture as a table.
#![tactic(auto)]

pub mod frame_table;
pub mod frames_file;
pub mod sheet;
