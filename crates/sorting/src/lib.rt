// A frame text with its H blocks sorted by name, written into a lent buffer. At most 64 blocks: where they begin is kept, and nothing of the text is copied
// before it is written.
#![tactic(auto, using(crate::proofs::Laws::laws))]

ghost use Rattle.std.specs.Prelude.{◌≡◌, ◌++◌, ◌+◌, ◌≤◌, ◌<◌, length, get_or, take, drop, Ok};
ghost use Rattle.std.proofs.lemmas.List.Edits.{sets};
ghost use Rattle.buffer.specs.Buffer.{Writes};
ghost use Rattle.text.specs.Print.{Every};
ghost use Rattle.frame_text.specs.Rules.{verdict};
ghost use Rattle.reorder.specs.Sorted.{up_to, insert_by, sort_by, placed, sorted_text};
ghost use Rattle.sorting.specs.Sorting.{name_at, behind, earlier, is_header, starts_at, section_bytes, gathered, Here, Starts, Ends, Chooses};
ghost use Rattle.sorting.specs.Sorting.{Puts, Collects, CollectsSorted, Sorts};

use buffer::put;
use frame_definition::is_owner;
use frame_text::check_frame_text;
use readers::line_fields::field_of;
use refusal::Refusal;
use text::find;

// The H lines that a frame text has at most.
const HEADERS: usize = 64;

// May the name a stand before the name b? Byte by byte, a front before the whole.
fn is_up_to(a: &[u8], b: &[u8]) -> bool
    ensures { result ≡ up_to a.now b.now }
{
    for (i, x) in a.iter().enumerate() {
        if b.len() <= i {
            return false;
        }
        if *x != b[i] {
            return *x < b[i];
        }
    }
    true
}

// The name of the H line at a place. Behind the end of the text there is none.
fn name_at(text: &[u8], at: usize) -> &[u8]
    ensures { result.now ≡ name_at text.now at }
{
    if text.len() < at {
        return &text[..0];
    }
    let rest = &text[at..];
    let end = find(rest, 10);
    let line = &rest[..end];
    field_of(line, 4)
}

// May the block at a stand before that at b?
fn is_earlier(text: &[u8], a: usize, b: usize) -> bool
    ensures { result ≡ earlier text.now a b }
{
    is_up_to(name_at(text, a), name_at(text, b))
}

// Puts the block k, before which those from k on are sorted, where it belongs among them.
fn insert(text: &[u8], starts: &mut [usize], k: usize)
    requires { k < length starts.old }
    ensures { starts.new ≡ take k starts.old
        ++ insert_by (earlier text.now) (get_or starts.old k 0) (drop (k + 1) starts.old) }
{
    let it = starts[k];
    let last = starts.len() - 1;
    for i in k..last {
        let next = starts[i + 1];
        if is_earlier(text, it, next) {
            starts[i] = it;
            return;
        }
        starts[i] = next;
    }
    starts[last] = it;
}

// Sorts blocks by name; those of one name stay as they stood.
fn sort(text: &[u8], starts: &mut [usize])
    ensures { starts.new ≡ sort_by (earlier text.now) starts.old }
{
    for k in (0..starts.len()).rev() {
        insert(text, starts, k);
    }
}

// The place behind the line at a place.
fn line_end(text: &[u8], at: usize) -> usize
    requires { (Here text.now at) × (at < length text.now) }
    ensures { result ≡ behind text.now at }
{
    at + find(&text[at..], 10) + 1
}

// Where the section ends that begins at a place.
fn section_end(text: &[u8], start: usize) -> usize
    requires { Starts text.now start }
    ensures { Ends text.now start result }
{
    let mut at = line_end(text, start);
    while at < text.len() {
        if is_owner(text[at]) {
            return at;
        }
        at = line_end(text, at);
    }
    at
}

// Writes the section that begins at a place; answers the place behind it in the buffer.
fn put_section(text: &[u8], start: usize, buffer: &mut [u8], out: usize) -> usize
    requires starts { Starts text.now start }
    requires start_in_bounds { out + length (section_bytes text.now start) ≤ length buffer.old }
    ensures { Puts text.now start buffer.old out result buffer.new }
{
    let end = section_end(text, start);
    put(buffer, out, &text[start..end]);
    out + (end - start)
}

// Where the blocks begin, in the order of the text; answers how many there are.
fn collect(text: &[u8], starts: &mut [usize]) -> usize
    requires { (verdict text.now ≡ Ok tt) × (length starts.old ≡ 64) }
    ensures { Collects text.now starts.new result }
{
    let mut n = 0;
    let mut at = 0;
    while at < text.len() {
        let end = section_end(text, at);
        if text[at] != b'H' {
            at = end;
            continue;
        }
        starts[n] = at;
        n += 1;
        at = end;
    }
    n
}

// The same, sorted.
fn collect_sorted(text: &[u8], starts: &mut [usize]) -> usize
    requires { (verdict text.now ≡ Ok tt) × (length starts.old ≡ 64) }
    ensures { CollectsSorted text.now starts.new result }
{
    let n = collect(text, starts);
    sort(text, &mut starts[..n]);
    n
}

// Where the section begins that stands in the place of the one at `at`: of a block the next of the sorted ones, of which so many are used.
#[derive(Clone, Copy)]
struct Chosen {
    start: usize,
    used: usize,
}

fn choose(text: &[u8], starts: &[usize], used: usize, at: usize) -> Chosen
    requires { (Starts text.now at) × Every (Starts text.now) (drop used starts.now) }
    ensures { Chooses text.now starts.now used at result }
{
    if text[at] != b'H' {
        return Chosen { start: at, used };
    }
    if starts.len() <= used {
        return Chosen { start: at, used };
    }
    Chosen {
        start: starts[used],
        used: used + 1,
    }
}

// Writes the sections of the text with these blocks, one after the other, in the places of blocks.
fn write_placed(text: &[u8], starts: &[usize], buffer: &mut [u8])
    requires text_value { (verdict text.now ≡ Ok tt) × Every (Starts text.now) starts.now }
    requires text_in_bounds { length (gathered text.now (placed (is_header text.now) starts.now (starts_at text.now 0))) ≤ length buffer.old }
    ensures { buffer.new ≡ sets buffer.old 0
        (gathered text.now (placed (is_header text.now) starts.now (starts_at text.now 0))) }
{
    let mut at = 0;
    let mut out = 0;
    let mut used = 0;
    while at < text.len() {
        let end = section_end(text, at);
        let chosen = choose(text, starts, used, at);
        out = put_section(text, chosen.start, buffer, out);
        used = chosen.used;
        at = end;
    }
}

// Writes an accepted text sorted, if there is room.
fn sort_within(text: &[u8], buffer: &mut [u8]) -> Result<usize, Refusal>
    requires { verdict text.now ≡ Ok tt }
    ensures { Writes (sorted_text text.now) buffer.old result buffer.new }
{
    let size = text.len();
    if buffer.len() < size {
        return Err(Refusal::MoreBytes(size));
    }
    let mut starts = [0usize; HEADERS];
    let n = collect_sorted(text, &mut starts);
    write_placed(text, &starts[..n], buffer);
    Ok(size)
}

// Writes a frame text into the buffer with its H blocks sorted by name, and answers its length, or refuses. A refusal writes nothing, an answer nothing past
// the text's length.
pub fn sort_headers(text: &[u8], buffer: &mut [u8]) -> Result<usize, Refusal>
    ensures { Sorts text.now buffer.old result buffer.new }
{
    check_frame_text(text)?;
    sort_within(text, buffer)
}
