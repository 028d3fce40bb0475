// The text of a listing: the rows of a header as decimal numbers, a line each, and last the header's number. Read, compared and written.
#![tactic(auto, using(crate::proofs::Laws::laws))]

mod difference;
mod form;
mod lines;

pub use difference::first_difference;
pub use form::{Named, read_form};
pub use lines::put_lines;
