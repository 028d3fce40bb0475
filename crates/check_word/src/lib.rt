// The word `check`: is a definition text accepted, and if not, what is wrong with it?
#![tactic(auto, using(readers::proofs::line_fields::Laws::step_laws, text::proofs::Laws::front_count))]

pub mod check_file;
pub mod check_page;
pub mod check_words;
pub mod form_words;
