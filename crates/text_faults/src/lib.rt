// Why a line of a definition text isn't of its form, or doesn't belong where it stands.
#![tactic(auto, using(crate::proofs::advice::Laws::laws, crate::proofs::advice::Laws::line_laws, crate::proofs::advice::Laws::fault_laws, crate::proofs::fault::Laws::laws, crate::proofs::fault::Laws::outside_laws, crate::proofs::fault::Laws::right_laws, crate::proofs::fault::Laws::why_laws, crate::proofs::fault::Laws::part_laws, crate::proofs::line_form::Laws::laws, crate::proofs::placement::Laws::laws))]

pub mod advice;
pub mod fault;
pub mod line_form;
pub mod placement;
