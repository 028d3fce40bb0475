// A frame's line of the table, column by column.
#![tactic(auto)]

pub mod beam_columns;
pub mod frame_row;
pub mod mask_column;
pub mod mpdu_columns;
pub mod node_columns;
