// What rows of a table say, whatever the table: a number that is not there is 0, and bytes that are not there are none.
#![tactic(auto, using(crate::proofs::cells::Laws::laws, crate::proofs::cells::Laws::part_laws))]

ghost use Rattle.std.specs.Prelude.{◌≡◌, ◌≤◌};
ghost use Rattle.readers.specs.Cells.{cell_of, part_from};

// Number k of row i, of rows so wide.
pub fn cell(rows: &[u64], width: usize, i: usize, k: usize) -> u64
    ensures { result ≡ cell_of rows.now width i k }
{
    if width <= k || rows.len() / width <= i {
        return 0;
    }
    rows[i * width + k]
}

// The first of n rows so wide whose number k is a value; n where there is none.
pub fn first_row(rows: &[u64], width: usize, n: usize, k: usize, value: u64) -> usize {
    (0..n)
        .find(|i| cell(rows, width, *i, k) == value)
        .unwrap_or(n)
}

// How many rows row i stands inside, one in the other, where number k is its parent's row + 1, or 0: at most 8 are counted.
pub fn depth_of(rows: &[u64], width: usize, i: usize, k: usize) -> usize
    ensures { result ≤ 8 }
{
    let mut row = i;
    for depth in 0..8 {
        let parent = cell(rows, width, row, k);
        if parent == 0 {
            return depth;
        }
        row = (parent - 1) as usize;
    }
    8
}

// So many bytes from a place on, if all of them are there.
pub fn part(bytes: &[u8], start: usize, count: usize) -> &[u8]
    ensures { result.now ≡ part_from bytes.now start count }
{
    if bytes.len() < start || bytes.len() - start < count {
        return &bytes[..0];
    }
    &bytes[start..start + count]
}
