// The words `list` and `judge`: the listing of a frame's header, and whether a dealer's is the same.
#![tactic(auto)]

pub mod judge_listing;
pub mod list_frame;
pub mod listing_file;
