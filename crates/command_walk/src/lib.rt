// The walk over a command: it reads a list of Qs and Gs over the body, writes the rows for which there is room in its part of the table, and counts all.
#![tactic(auto, using(crate::proofs::Outer::outer_laws))]

ghost use Rattle.std.specs.Prelude.{◌<◌, length};
ghost use Rattle.command_schema.specs.Heads.{heads_of, entries_of};
ghost use Rattle.command_schema.specs.Loaded.{IsLoaded};
ghost use Rattle.command_rules.specs.Walk.{walk};
ghost use Rattle.command_groups.specs.Steps.{Gives};

use command_groups::{Group, Taken, keep, keep_unvalued, param_at, read_group, repeats_at};
use command_lengths::NO_VALUE;
use command_param::Spot;
use command_rules::{MOST_ENTRIES, Offsets};
use command_schema::G_KIND;
use records::BodyOffset;

// The outer list. The table begins behind the first `skip` rows, which are counted and not written.
pub fn walk_params(
    text: &[u8],
    loaded: &[u16],
    count: usize,
    offsets: Offsets,
    body: &[u8],
    skip: usize,
    rows: &mut [u64],
) -> Taken
    requires { (IsLoaded text.now loaded.now count) × (length body.now < 65536) }
    ensures { Gives (walk offsets body.now (entries_of (heads_of text.now))) skip
        rows.old 0 rows.new result }
{
    let mut kept = [NO_VALUE; MOST_ENTRIES];
    let mut have: usize = 0;
    let mut at = BodyOffset(0);
    let mut next: usize = 0;
    for j in 0..count {
        let q = command_schema::loaded_at(loaded, j);
        let spot = Spot {
            at,
            row: next,
            parent: 0,
            skip,
        };
        if q.is_outer() {
            let Some(read) = param_at(text, q, body, spot, &kept[..have], rows, next) else {
                have = keep_unvalued(offsets, &mut kept, have, 0);
                continue;
            };
            have = keep(&mut kept, have, read.entry);
            next += read.count;
            at = read.end;
            continue;
        }
        if q.kind != G_KIND {
            continue;
        }
        let group = Group {
            line: q.line,
            first: j + 1,
            count,
        };
        let most = repeats_at(q, body, at, &kept[..have]);
        let g = read_group(text, loaded, group, most, body, spot, rows);
        have = keep_unvalued(offsets, &mut kept, have, g.times);
        next += g.count;
        at = g.end;
    }
    Taken {
        end: at,
        count: next,
    }
}
