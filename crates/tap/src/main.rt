// tap: the Z-Wave frames of a capture, and the definitions that name them, for people. The last line of the output is `ok`,
// `refused N V` (a refusal of docs/RULES.md: its number and what it carries), `differs L` (of `judge`), `overlaps N` (of `overlaps`) or `failed`.
// A program has no exit status here; bin/tap makes one of that line.
#![tactic(auto)]

mod help_page;

use check_word::check_file::check_definition;
use coverage_word::coverage_file::show_coverage;
use files::arguments::{argument, argument_count};
use frames_word::frames_file::show_frames;
use help_page::help;
use listing_word::listing_file::{judge_frame, list_frame};
use order_word::overlaps_file::tell_overlaps;
use order_word::sort_file::sort_definition;
use output::outcome::{fail, fail_word};
use show_word::show_file::show_frame;
use std::rt::{Env, Files};
use tidy_word::tidy_file::tidy_definition;
use totals_word::totals_file::show_totals;
use xml_word::text_file::write_text;
use xml_word::xml_file::write_xml;

// Does what a word asks for.
fn obey(rt: &(impl Env + Files + Input), word: &[u8]) {
    match word {
        b"frames" => show_frames(rt),
        b"show" => show_frame(rt),
        b"check" => check_definition(rt),
        b"tidy" => tidy_definition(rt),
        b"list" => list_frame(rt),
        b"judge" => judge_frame(rt),
        b"totals" => show_totals(rt),
        b"xml" => write_xml(rt),
        b"text" => write_text(rt),
        b"overlaps" => tell_overlaps(rt),
        b"sort" => sort_definition(rt),
        b"coverage" => show_coverage(rt),
        b"help" => help(rt),
        _ => fail_word(word),
    }
}

// The first argument is the word.
fn main(rt: HostRuntime) {
    if argument_count(&rt) < 2 {
        fail(b"tap: say what to do: 'tap help' lists the words\n");
        return;
    }
    let mut word = io::buffer();
    let n = argument(&rt, 1, &mut word);
    obey(&rt, &word[..n]);
}
