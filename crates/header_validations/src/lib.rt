// The validations of a candidate, held against the rows that a walk has read.
#![tactic(auto, using(crate::proofs::Laws::laws))]

ghost use Rattle.std.specs.Prelude.{◌≡◌, ◌*◌, ◌≤◌, length};
ghost use Rattle.text.specs.Place.{part_of};
ghost use Rattle.text.specs.Records.{Readable};
ghost use Rattle.frame_text.specs.Form.{names};
ghost use Rattle.frame_text.specs.Rules.{rules};
ghost use Rattle.frame_definition.specs.Definition.{below, validations};
ghost use Rattle.frame_definition.specs.Find.{from};
ghost use Rattle.header_fields.specs.Fields.{line_width, fields_in};
ghost use Rattle.header_rules.specs.Rows.{flat_value};
ghost use Rattle.header_rules.specs.Decide.{ruled_out};
ghost use Rattle.header_rules.specs.Flat.{flat_meets};
ghost use Rattle.header_rules.specs.Loaded.{name_of};
ghost use Rattle.header_paths.specs.Scratch.{scratch_width, rows_in};
ghost use Rattle.header_paths.specs.Lookup.{valued};
ghost use Rattle.header_validations.specs.Validations.{met, other};

use frame_definition::{NextValidation, next_validation};
use header_paths::{find_value, part_of};
use text::{Part, Place};

// What a V's path finds among the n rows.
fn find_path(
    text: &[u8],
    fields: &[u64],
    count: usize,
    rows: &[u64],
    n: usize,
    path: Part,
) -> Option<u64>
    requires { (count * line_width ≤ length fields.now) × (n * scratch_width ≤ length rows.now) }
    ensures { let ps = fields_in text.now fields.now count in
        result ≡ valued (flat_value (name_of ps) (rows_in rows.now n) (names (part_of text.now path)) 0) }
{
    let found = part_of(text, path.start as u64, path.len as u64);
    find_value(text, fields, count, rows, n, found)
}

fn is_met(found: Option<u64>, value: u16) -> bool
    ensures { result ≡ met found value }
{
    found == Some(value as u64)
}

fn is_other(found: Option<u64>, value: u16) -> bool
    ensures { result ≡ other found value }
{
    found.is_some_and(|v| v != value as u64)
}

// Do all V under the H that owns what follows the place find their values among the n rows?
pub fn meets_all(
    text: &[u8],
    start: Place,
    fields: &[u64],
    count: usize,
    rows: &[u64],
    n: usize,
) -> bool
    requires readable { Readable rules text.now start }
    requires line_width_in_bounds { (count * line_width ≤ length fields.now) × (n * scratch_width ≤ length rows.now) }
    ensures { let ps = fields_in text.now fields.now count in
        result ≡ flat_meets (name_of ps) (rows_in rows.now n) (validations (below (from text.now start))) }
{
    let mut place = start;
    while let NextValidation::At {
        path,
        value,
        place: next,
    } = next_validation(text, place)
    {
        if !is_met(find_path(text, fields, count, rows, n, path), value) {
            return false;
        }
        place = next;
    }
    true
}

// Does one of them find another value?
pub fn is_ruled_out(
    text: &[u8],
    start: Place,
    fields: &[u64],
    count: usize,
    rows: &[u64],
    n: usize,
) -> bool
    requires readable { Readable rules text.now start }
    requires line_width_in_bounds { (count * line_width ≤ length fields.now) × (n * scratch_width ≤ length rows.now) }
    ensures { let ps = fields_in text.now fields.now count in
        result ≡ ruled_out (name_of ps) (rows_in rows.now n) (validations (below (from text.now start))) }
{
    let mut place = start;
    while let NextValidation::At {
        path,
        value,
        place: next,
    } = next_validation(text, place)
    {
        if is_other(find_path(text, fields, count, rows, n, path), value) {
            return true;
        }
        place = next;
    }
    false
}
