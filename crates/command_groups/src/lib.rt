// A group of a command: its members, its repetitions, and how often it repeats; and the entries that a list keeps.
// Each function writes the rows for which there is room in its part of the table, and counts all.
#![tactic(auto, using(crate::proofs::Entries::keep_laws, crate::proofs::Entries::unvalued_laws, crate::proofs::Groups::repetition_laws, crate::proofs::Answers::param_laws, crate::proofs::Groups::turns_laws, crate::proofs::Members::members_laws, crate::proofs::Groups::often_laws))]

ghost use Rattle.std.specs.Prelude.{◌≡◌, [], ◌+◌, ◌-◌, ◌^◌, ◌≤◌, ◌<◌, length, drop, set};
ghost use Rattle.command_lengths.specs.Entries.{entries};
ghost use Rattle.command_rules.specs.Lengths.{least, most_entries, repeats};
ghost use Rattle.command_schema.specs.Heads.{heads_of, members_of};
ghost use Rattle.command_schema.specs.Loaded.{field_in, Stands, IsLoaded};
ghost use Rattle.command_param.specs.Steps.{ReadsParam};
ghost use Rattle.command_rules.specs.Walk.{members, turn, repetition_row, repetitions};
ghost use Rattle.command_groups.specs.Steps.{Gives, GivesGroup, Repeats, unvalued_kept, unvalued_have};

use command_lengths::NO_ENTRY;
use command_param::{Param, Spot};
use command_rules::{BitShift, MOST_ENTRIES, Offsets, REPETITION_KIND, Row};
use command_schema::Loaded;
use records::BodyOffset;

// A group: the line of its G, the loaded row of its first member, and how many rows are loaded.
#[derive(Clone, Copy)]
pub struct Group {
    pub line: u16,
    pub first: usize,
    pub count: usize,
}

// A repetition: its number, from 0, its place in the body, the number of its own row, and how many rows the table passes over.
#[derive(Clone, Copy)]
pub struct Turn {
    pub number: usize,
    pub at: BodyOffset,
    pub row: usize,
    pub skip: usize,
}

// What a list or a repetition takes: where it ends, and how many rows it has.
#[derive(Clone, Copy)]
pub struct Taken {
    pub end: BodyOffset,
    pub count: usize,
}

// What a group takes, and how often it repeats.
#[derive(Clone, Copy)]
pub struct Repeated {
    pub end: BodyOffset,
    pub count: usize,
    pub times: usize,
}

// Keeps one more entry, while an offset can count to it. Returns how many are kept.
pub fn keep(kept: &mut [u16], have: usize, entry: u16) -> usize
    requires { (have ≤ most_entries) × (length kept.old ≡ most_entries) }
    ensures { (kept.new ≡ set kept.old have entry) × (result ≡ least (have + 1) most_entries) }
{
    if have < MOST_ENTRIES {
        kept[have] = entry;
        return have + 1;
    }
    have
}

// As many entries without value: the places that follow say so already.
fn keep_repetitions(have: usize, times: usize) -> usize
    requires { have ≤ most_entries }
    ensures { result ≡ least (have + times) most_entries }
{
    if times <= MOST_ENTRIES - have {
        return have + times;
    }
    MOST_ENTRIES
}

// Keeps what a group adds that repeats so often, or a Q that does not exist, which has no repetitions: an entry without value for each, or by position one that
// no offset finds.
pub fn keep_unvalued(offsets: Offsets, kept: &mut [u16], have: usize, times: usize) -> usize
    requires { (have ≤ most_entries) × (length kept.old ≡ most_entries) }
    ensures { (kept.new ≡ unvalued_kept offsets kept.old have) × (result ≡ unvalued_have offsets have times) }
{
    match offsets {
        Offsets::Answered => keep_repetitions(have, times),
        Offsets::Position => keep(kept, have, NO_ENTRY),
    }
}

// Reads a Q into the table from row k of `rows` on.
pub fn param_at(
    text: &[u8],
    q: Loaded,
    body: &[u8],
    spot: Spot,
    es: &[u16],
    rows: &mut [u64],
    k: usize,
) -> Option<Param>
    requires { (Stands text.now q) × (length body.now < 65536) × (spot.row < 2 ^ 50) × (k < 2 ^ 50) }
    ensures { ReadsParam body.now (field_in text.now q) (entries es.now) spot.at.0 spot.row spot.parent
        spot.skip rows.old k rows.new result }
{
    let rest = command_rows::row_at(spot.skip, k, rows.len());
    let here = Spot {
        skip: spot.skip.saturating_sub(k),
        ..spot
    };
    command_param::decode_param(text, q, body, here, es, &mut rows[rest..])
}

// The members of one repetition: the loaded rows from the group's first on, up to the first that is no member. `spot` is that of the first member, and
// `rows` the table from its row on. `kept` has room for the entries.
fn read_members(
    text: &[u8],
    loaded: &[u16],
    group: Group,
    body: &[u8],
    spot: Spot,
    kept: &mut [u16],
    rows: &mut [u64],
) -> Taken
    requires { (IsLoaded text.now loaded.now group.count) × (group.first ≤ group.count) × (length body.now < 65536)
        × (length kept.old ≡ most_entries) × (spot.row < 2 ^ 49) }
    ensures { Gives (members body.now (members_of (drop group.first (heads_of text.now))) spot.at.0 [] spot.row
        spot.parent) spot.skip rows.old 0 rows.new result }
{
    let mut have: usize = 0;
    let mut at = spot.at;
    let mut next: usize = 0;
    for j in group.first..group.count {
        let q = command_schema::loaded_at(loaded, j);
        if !q.is_member() {
            return Taken {
                end: at,
                count: next,
            };
        }
        let here = Spot {
            at,
            row: spot.row + next,
            ..spot
        };
        let Some(read) = param_at(text, q, body, here, &kept[..have], rows, next) else {
            return Taken {
                end: at,
                count: next,
            };
        };
        have = keep(kept, have, read.entry);
        next += read.count;
        at = read.end;
    }
    Taken {
        end: at,
        count: next,
    }
}

fn repetition_row(line: u16, at: BodyOffset, end: BodyOffset, number: usize) -> Row
    requires { (at.0 < 65536) × (end.0 < 65536) }
    ensures { result ≡ repetition_row line at.0 end.0 number }
{
    let from = command_param::in_payload(at);
    let to = command_param::in_payload(end);
    Row {
        kind: REPETITION_KIND,
        line: line as u64,
        parent: 0,
        start: from.0 as u64,
        end: to.0 as u64,
        valued: 0,
        value: 0,
        named: 0,
        number: number as u64,
        lacking: 0,
    }
}

// The members of a repetition, into the table from row 1 of `rows` on.
fn members_at(
    text: &[u8],
    loaded: &[u16],
    group: Group,
    body: &[u8],
    repetition: Turn,
    kept: &mut [u16],
    rows: &mut [u64],
) -> Taken
    requires { (IsLoaded text.now loaded.now group.count) × (group.first ≤ group.count) × (length body.now < 65536)
        × (length kept.old ≡ most_entries) × (repetition.row < 2 ^ 48) }
    ensures { Gives (turn body.now (members_of (drop group.first (heads_of text.now))) repetition.at.0 repetition.row)
        repetition.skip rows.old 1 rows.new result }
{
    let rest = command_rows::row_at(repetition.skip, 1, rows.len());
    let first = repetition.row + 1;
    let spot = Spot {
        at: repetition.at,
        row: first,
        parent: first as u64,
        skip: repetition.skip.saturating_sub(1),
    };
    read_members(text, loaded, group, body, spot, kept, &mut rows[rest..])
}

// One repetition. `rows` is the table from its own row on.
fn read_repetition(
    text: &[u8],
    loaded: &[u16],
    group: Group,
    body: &[u8],
    repetition: Turn,
    kept: &mut [u16],
    rows: &mut [u64],
) -> Option<Taken>
    requires { (IsLoaded text.now loaded.now group.count) × (group.first ≤ group.count) × (length body.now < 65536)
        × (length kept.old ≡ most_entries) × (repetition.row < 2 ^ 48) }
    ensures { Repeats body.now group.line (members_of (drop group.first (heads_of text.now))) repetition.number
        repetition.at.0
        repetition.row repetition.skip rows.old 0 rows.new result }
{
    let at = repetition.at;
    let taken = members_at(text, loaded, group, body, repetition, kept, rows);
    let end = taken.end;
    if end.0 <= at.0 {
        return None;
    }
    command_rows::write_row(
        rows,
        repetition.skip,
        0,
        repetition_row(group.line, at, end, repetition.number),
    );
    Some(Taken {
        end,
        count: taken.count + 1,
    })
}

// The same into the table from the repetition's row on.
fn repetition_at(
    text: &[u8],
    loaded: &[u16],
    group: Group,
    body: &[u8],
    repetition: Turn,
    kept: &mut [u16],
    rows: &mut [u64],
) -> Option<Taken>
    requires { (IsLoaded text.now loaded.now group.count) × (group.first ≤ group.count) × (length body.now < 65536)
        × (length kept.old ≡ most_entries) × (repetition.row < 2 ^ 48) }
    ensures { Repeats body.now group.line (members_of (drop group.first (heads_of text.now))) repetition.number
        repetition.at.0
        repetition.row repetition.skip rows.old repetition.row rows.new result }
{
    let rest = command_rows::row_at(repetition.skip, repetition.row, rows.len());
    let here = Turn {
        skip: repetition.skip.saturating_sub(repetition.row),
        ..repetition
    };
    read_repetition(text, loaded, group, body, here, kept, &mut rows[rest..])
}

// How often a group repeats at most, after the entries `es` of the outer list.
pub fn repeats_at(g: Loaded, body: &[u8], at: BodyOffset, es: &[u16]) -> usize
    ensures { result ≡ repeats g.paramoffs g.sizemask (record { 0 = g.sizeoffs }) (entries es.now)
        (length body.now - at.0) }
{
    let rest = command_param::remaining(body, at);
    command_lengths::repeats_of(g.paramoffs, g.sizemask, BitShift(g.sizeoffs), es, rest)
}

// A group, of at most so many repetitions. `spot` is that of its first row.
pub fn read_group(
    text: &[u8],
    loaded: &[u16],
    group: Group,
    most: usize,
    body: &[u8],
    spot: Spot,
    rows: &mut [u64],
) -> Repeated
    requires { (IsLoaded text.now loaded.now group.count) × (group.first ≤ group.count) × (length body.now < 65536)
        × (spot.row < 2 ^ 47) }
    ensures { GivesGroup (repetitions body.now group.line (members_of (drop group.first (heads_of text.now))) most 0
        spot.at.0 spot.row) spot.skip rows.old spot.row rows.new result }
{
    let mut kept = [0u16; MOST_ENTRIES];
    let mut from = spot.at;
    let mut next: usize = 0;
    for times in 0..most {
        let repetition = Turn {
            number: times,
            at: from,
            row: spot.row + next,
            skip: spot.skip,
        };
        let Some(taken) = repetition_at(text, loaded, group, body, repetition, &mut kept, rows)
        else {
            return Repeated {
                end: from,
                count: next,
                times,
            };
        };
        next += taken.count;
        from = taken.end;
    }
    Repeated {
        end: from,
        count: next,
        times: most,
    }
}
