// The word `show`: one frame of a capture whole.
#![tactic(auto)]

pub mod command_page;
pub mod frame_page;
pub mod show_file;
