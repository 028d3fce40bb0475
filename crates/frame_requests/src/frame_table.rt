// `fill_frames` on a table of frame records, and what stands in each of them afterwards.
ghost use Rattle.std.specs.Prelude.{◌*◌, ◌≤◌, length};
ghost use Rattle.pti.specs.Payload.{row_width};
ghost use Rattle.frame_requests.specs.Screen.{FilledFirst};

use answer::table::SHORT;
use pti::payload::ROW_WIDTH;
use radio::rssi::byte_of;
use rows::put_row;
use screen::{FrameRecord, fill_frames};

// The table of 16,384 records, and the answer of the call that filled it.
#[derive(Drop)]
pub struct FrameTable {
    pub records: [FrameRecord; 16384],
    pub filled: usize,
}

// `fill_frames` is lent the first cap records.
fn fill_first(mut records: [FrameRecord; 16384], rows: &[u16], n: usize, cap: usize) -> FrameTable
    requires { cap ≤ 16384 }
    ensures { FilledFirst records rows.now n cap result }
{
    let filled = fill_frames(&mut records[..cap], rows, n);
    FrameTable { records, filled }
}

// A record that nothing has been written to.
fn untouched() -> FrameRecord {
    FrameRecord {
        direction: 0xA5,
        region: 0xA5,
        channel: 0xA5,
        rate: 0xA5,
        rssi: -91,
        is_beam: true,
        beams: SHORT,
        start: SHORT,
        length: SHORT,
        number: SHORT,
        place: SHORT,
        node: SHORT,
        hash: SHORT,
        power: SHORT,
    }
}

// The beam count; 65,535, which no count is, where the flag does not say whether there is one.
fn beams_of(is_beam: bool, beams: u16) -> u16 {
    if is_beam == (beams == 0) {
        return 65535;
    }
    beams
}

// Whether two flat rows are the same.
fn same(a: &[u16; ROW_WIDTH], b: &[u16; ROW_WIDTH]) -> bool {
    a == b
}

// The flat row of a record: the pattern in each number for one that nothing has been written to.
fn flat_row(record: FrameRecord) -> [u16; ROW_WIDTH] {
    let row = [
        record.direction as u16,
        record.region as u16,
        record.channel as u16,
        record.rate as u16,
        byte_of(record.rssi),
        beams_of(record.is_beam, record.beams),
        record.start,
        record.length,
        record.number,
        record.place,
        record.node,
        record.hash,
        record.power,
    ];
    let fresh: [u16; ROW_WIDTH] = [
        0xA5, 0xA5, 0xA5, 0xA5, 0xA5, SHORT, SHORT, SHORT, SHORT, SHORT, SHORT, SHORT, SHORT,
    ];
    if same(&row, &fresh) {
        return [SHORT; ROW_WIDTH];
    }
    row
}

// The smaller of the two.
fn least(a: usize, b: usize) -> usize
    ensures { (result ≤ a) × (result ≤ b) }
{
    if a < b {
        return a;
    }
    b
}

// `fill_frames` on a table of as many records as there are flat rows, from the first n of these. Afterwards the flat row of each
// record stands where the flat rows stood. Answers what the call answered. No more than 16,384 records are lent.
pub fn frame_table(rows: &mut [u16], n: usize) -> usize
    ensures { result * row_width ≤ length rows.new }
{
    let lent = least(16384, rows.len() / ROW_WIDTH);
    let fresh = untouched();
    let records = [fresh; 16384];
    let table = fill_first(records, rows, n, lent);
    for i in 0..lent {
        let record = table.records[i];
        put_row(rows, i * ROW_WIDTH, &flat_row(record));
    }
    table.filled
}
