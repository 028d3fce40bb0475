// The definition of a command, loaded from an accepted text: one row of numbers for each Q or G, with a Q's first M, A and R resolved.
// Counterpart of `Cmd`, `Param` and `VariantGroup` of command_class/schema.rs. T, S and K lines stay in the text.
#![tactic(auto)]

mod items;

ghost use Rattle.std.specs.Prelude.{◌≡◌, ◌+◌, ◌*◌, ◌<◌, ◌≤◌, length, Ok};
ghost use Rattle.text.specs.Judge.{most_bytes};
ghost use Rattle.text.specs.Records.{Readable};
ghost use Rattle.rows.specs.Rows.{put};
ghost use Rattle.command_text.specs.Rules.{rules, verdict};
ghost use Rattle.command_schema.specs.Heads.{heads_of};
ghost use Rattle.command_schema.specs.Loaded.{loaded_width, numbers, loaded_at, rule_in, is_member, is_outer, after, IsLoaded, loaded_param, loaded_group};
ghost use Rattle.command_schema.specs.Loaded.{Stores};

use crate::items::{Gathered, OPEN, gather, length_of, named_of};
use command_class::Row;
use command_rules::{BitShift, Rule};
use rows::put_row;
use text::Place;

// The numbers of a loaded row.
pub const LOADED_WIDTH: usize = 12;

// The kind of a loaded Q.
pub const Q_KIND: u16 = b'Q' as u16;

// The kind of a loaded G.
pub const G_KIND: u16 = b'G' as u16;

// A Q or a G as it is loaded. Offsets, masks and shifts have the source's XML names.
#[derive(Clone, Copy)]
pub struct Loaded {
    pub kind: u16,
    pub level: u16,
    pub line: u16,
    // Where the line after a Q begins.
    pub at: u16,
    // A Q's condition; NO_NUMBER where one is missing.
    pub optionaloffs: u16,
    pub optionalmask: u16,
    // A Q's length: up to 255 bytes, OPEN or COUNTED.
    pub length: u16,
    // The entry that counts a Q's length or a G's repetitions, its mask and its shift.
    pub paramoffs: u16,
    pub sizemask: u16,
    pub sizeoffs: u16,
    // How many T and S lines stand under a Q.
    pub bits: u16,
    // 1 for a CONST whose first A and first R are not ascii.
    pub named: u16,
}

impl Loaded {
    // Is it a Q of a group?
    pub fn is_member(self) -> bool
        ensures { result ≡ is_member self }
    {
        if self.kind != Q_KIND {
            return false;
        }
        self.level == 1
    }

    // Is it a Q of the outer list?
    pub fn is_outer(self) -> bool
        ensures { result ≡ is_outer self }
    {
        if self.kind != Q_KIND {
            return false;
        }
        self.level == 0
    }

    // What the lines of a Q say of its length.
    pub fn rule(self) -> Rule
        ensures { result ≡ rule_in self }
    {
        if self.length < OPEN {
            return Rule::Fixed(self.length);
        }
        if self.length == OPEN {
            return Rule::Open;
        }
        Rule::Counted {
            offset: self.paramoffs,
            mask: self.sizemask,
            shift: BitShift(self.sizeoffs),
        }
    }

    // The place after the line of a Q.
    pub fn next(self) -> Place
        ensures { result ≡ after self }
    {
        Place {
            at: self.at as usize,
            line: (self.line as usize) + 1,
        }
    }

    fn numbers(self) -> [u16; LOADED_WIDTH]
        ensures { result ≡ numbers self }
    {
        [
            self.kind,
            self.level,
            self.line,
            self.at,
            self.optionaloffs,
            self.optionalmask,
            self.length,
            self.paramoffs,
            self.sizemask,
            self.sizeoffs,
            self.bits,
            self.named,
        ]
    }
}

// Writes row i of a table, if it has room there; else writes nothing.
fn store_row(table: &mut [u16], i: usize, row: Loaded)
    requires { i < 256 }
    ensures { table.new ≡ put table.old (i * loaded_width) (numbers row) }
{
    put_row(table, i * LOADED_WIDTH, &row.numbers());
}

// Row i of a table.
pub fn loaded_at(table: &[u16], i: usize) -> Loaded
    requires { (i < 256) × (i * loaded_width + loaded_width ≤ length table.now) }
    ensures { result ≡ loaded_at table.now i }
{
    let at = i * LOADED_WIDTH;
    Loaded {
        kind: table[at],
        level: table[at + 1],
        line: table[at + 2],
        at: table[at + 3],
        optionaloffs: table[at + 4],
        optionalmask: table[at + 5],
        length: table[at + 6],
        paramoffs: table[at + 7],
        sizemask: table[at + 8],
        sizeoffs: table[at + 9],
        bits: table[at + 10],
        named: table[at + 11],
    }
}

// The row of a Q that stands at a place, with what is gathered of the lines under it.
fn load_param(row: Row, place: Place, next: Place, g: Gathered) -> Loaded
    requires { (place.line < 65536) × (next.at < 65536) }
    ensures { result ≡ loaded_param row place next g }
{
    let typed = row.typed;
    Loaded {
        kind: Q_KIND,
        level: row.level,
        line: place.line as u16,
        at: next.at as u16,
        optionaloffs: row.offset,
        optionalmask: row.mask,
        length: length_of(typed, g),
        paramoffs: g.variant.paramoffs,
        sizemask: g.variant.sizemask,
        sizeoffs: g.variant.sizeoffs,
        bits: g.bits,
        named: named_of(typed, g),
    }
}

// The row of a G.
fn load_group(row: Row, place: Place) -> Loaded
    requires { place.line < 65536 }
    ensures { result ≡ loaded_group row place }
{
    Loaded {
        kind: G_KIND,
        level: 0,
        line: place.line as u16,
        at: 0,
        optionaloffs: 0,
        optionalmask: 0,
        length: 0,
        paramoffs: row.offset,
        sizemask: row.mask,
        sizeoffs: row.shift,
        bits: 0,
        named: 0,
    }
}

// Loads the Q at a place as row i: its line says `row`, and the lines under it begin at `next`. Returns the place after them.
fn load_with_items(
    text: &[u8],
    place: Place,
    row: Row,
    next: Place,
    table: &mut [u16],
    i: usize,
) -> Place
    requires { (Readable rules text.now next) × (length text.now ≤ most_bytes) × (place.line < 65536) × (i < 256) }
    ensures { Stores text.now place row next i table.old result table.new }
{
    let under = gather(text, next);
    let gathered = under.gathered;
    store_row(table, i, load_param(row, place, next, gathered));
    under.next
}

// Loads an accepted text into a table that has room for it, and returns how many rows it has.
pub fn load(text: &[u8], table: &mut [u16]) -> usize
    requires { (verdict text.now ≡ Ok tt) × (length (heads_of text.now) * loaded_width ≤ length table.old) }
    ensures { IsLoaded text.now table.new result }
{
    let mut place = Place::start();
    let mut n: usize = 0;
    while place.at < text.len() {
        let read = command_class::read_at(text, place);
        let row = read.row;
        let next = read.next;
        if row.kind == b'Q' {
            place = load_with_items(text, place, row, next, table, n);
            n += 1;
            continue;
        }
        if row.kind == b'G' {
            store_row(table, n, load_group(row, place));
            n += 1;
            place = next;
            continue;
        }
        place = next;
    }
    n
}
