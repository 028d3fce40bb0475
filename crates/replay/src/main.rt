// Answers the requests of standard input, one a line, each with a line on standard output: the door by which vectors,
// differential runs and outside checks reach the proved calls.
#![tactic(auto, using(crate::proofs::Laws::laws))]

mod definitions;
mod input;
mod mpdu;
mod serve;

// All the memory of the program: a line of at most 524,288 bytes with its end, the bytes that it says, a table of 16,384 rows of
// ten numbers, and the answers that wait to be written.
fn main(rt: HostRuntime) {
    let mut lines = [0u8; 524288];
    let mut bytes = [0u8; 262144];
    let mut rows = [0u64; 163840];
    let mut out = io::buffer();
    serve::serve(&mut rt.stdin(), &mut lines, &mut bytes, &mut rows, &mut out);
}
