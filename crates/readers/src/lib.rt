// Small readers that crates share, those of tap's words and others: the lines and fields of a text, the index of commands, the rows of a table, numbers.
#![tactic(auto)]

pub mod catalog;
pub mod cells;
pub mod line_fields;
pub mod lines;
pub mod numeral;
pub mod region;
