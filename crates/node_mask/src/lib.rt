// The nodes that a bit mask addresses: BM1 of docs/RULES.md. How many they are is counted a word of eight bytes at a time; they are listed
// from one set bit of a word to the next.
#![tactic(auto, using(crate::proofs::Laws::laws))]

ghost use Rattle.std.specs.Prelude.{◌≡◌, ◌+◌, ◌-◌, ◌*◌, ◌/◌, ◌%◌, ◌^◌, ◌<◌, ◌≤◌, length, take, drop};
ghost use Rattle.std.proofs.lemmas.List.Edits.{sets};
ghost use Rattle.node_mask.specs.Nodes.{nodes_of, Lists};
ghost use Rattle.node_mask.specs.Words.{little, nodes_in};

use refusal::Refusal;

// The longest mask whose nodes are all numbers of 16 bits.
pub const MOST_BYTES: usize = 8191;

fn wide(byte: u8) -> u64
    ensures { result ≡ byte % 256 }
{
    u64::from(byte)
}

// Four bytes as a number, the first lowest.
fn half_word(bytes: &[u8], at: usize) -> u64
    requires { (at ≤ 4) × (length bytes.now ≡ 8) }
    ensures { (result ≡ little (take 4 (drop at bytes.now))) × (result < 2 ^ 32) }
{
    let low = wide(bytes[at]) + wide(bytes[at + 1]) * 256;
    let high = wide(bytes[at + 2]) + wide(bytes[at + 3]) * 256;
    low + high * 65536
}

// Fewer than eight bytes as a number, the first lowest.
fn short_word(bytes: &[u8]) -> u64
    requires { length bytes.now ≤ 8 }
    ensures { result ≡ little bytes.now }
{
    let mut word: u64 = 0;
    for i in (0..bytes.len()).rev() {
        word = word * 256 + wide(bytes[i]);
    }
    word
}

// At most eight bytes as a word, the first lowest.
fn word_of(bytes: &[u8]) -> u64
    requires { length bytes.now ≤ 8 }
    ensures { result ≡ little bytes.now }
{
    if bytes.len() < 8 {
        return short_word(bytes);
    }
    half_word(bytes, 0) + half_word(bytes, 4) * 4294967296
}

// How many bytes the next word has.
fn bytes_of_word(left: usize) -> usize
    requires { 0 < left }
    ensures { (0 < result) × (result ≤ 8) × (result ≤ left) }
{
    left.min(8)
}

// How many nodes the mask addresses, counted a word at a time.
pub fn count_nodes(mask: &[u8]) -> usize
    requires { length mask.now ≤ 8191 }
    ensures { (result ≡ length (nodes_of mask.now)) × (result ≤ 8 * length mask.now) }
{
    let mut count: usize = 0;
    let mut at: usize = 0;
    while at < mask.len() {
        let n = bytes_of_word(mask.len() - at);
        let end = at + n;
        count += u64::count_ones(word_of(&mask[at..end])) as usize;
        at = end;
    }
    count
}

// The node of a bit, counted from the byte `at` on.
fn node_of(at: usize, bit: usize) -> u16
    requires { at + bit / 8 < 8191 }
    ensures { result ≡ at * 8 + bit + 1 }
{
    (at * 8 + bit + 1) as u16
}

// Writes the nodes of the n bytes from `at` on, the first as entry `first`. Says where the next entry stands.
fn put_word(mask: &[u8], at: usize, n: usize, nodes: &mut [u16], first: usize) -> usize
    requires { (length mask.now ≤ 8191) × (at + n ≤ length mask.now) × (n ≤ 8)
        × (first + length (nodes_in mask.now at n) ≤ length nodes.old) }
    ensures { (result ≡ first + length (nodes_in mask.now at n))
        × (nodes.new ≡ sets nodes.old first (nodes_in mask.now at n)) }
{
    let end = at + n;
    let mut rest = word_of(&mask[at..end]);
    let mut i = first;
    while rest != 0 {
        nodes[i] = node_of(at, u64::trailing_zeros(rest) as usize);
        rest = rest & (rest - 1);
        i += 1;
    }
    i
}

// Writes the nodes of a mask into a table that has room for them.
fn put_nodes(mask: &[u8], nodes: &mut [u16])
    requires { (length mask.now ≤ 8191) × (length (nodes_of mask.now) ≤ length nodes.old) }
    ensures { nodes.new ≡ sets nodes.old 0 (nodes_of mask.now) }
{
    let mut i: usize = 0;
    let mut at: usize = 0;
    while at < mask.len() {
        let left = mask.len() - at;
        let n = bytes_of_word(left);
        i = put_word(mask, at, n, nodes, i);
        at += n;
    }
}

// Lists the nodes that the mask addresses, rising, each once; or refusal 4 or 8, and writes nothing.
pub fn mask_nodes(mask: &[u8], nodes: &mut [u16]) -> Result<usize, Refusal>
    ensures { Lists mask.now nodes.old result nodes.new }
{
    if MOST_BYTES < mask.len() {
        return Err(Refusal::TooLong(mask.len()));
    }
    let count = count_nodes(mask);
    if nodes.len() < count {
        return Err(Refusal::MoreRows(count));
    }
    put_nodes(mask, nodes);
    Ok(count)
}
