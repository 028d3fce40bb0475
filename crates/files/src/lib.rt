// The arguments of tap, and the files that they name: captures, and the folder of the definitions.
#![tactic(auto)]

pub mod append;
pub mod arguments;
pub mod capture;
pub mod capture_line;
pub mod day;
pub mod folder;
pub mod frame_names;
pub mod input;
pub mod options;
