// The options of a word of the command, and the arguments that are none.
use crate::arguments::{argument, argument_count};
use frame::region_bits;
use output::outcome::fail;
use output::refusals::refuse_capture;
use readers::line_fields::{count_pieces, find_field};
use readers::numeral::read_numeral;
use refusal::Refusal;
use std::num::wrapping_add_usize;
use std::rt::Env;
use writer::STDERR_FILENO;

// What the arguments behind the word say. An argument is told by its number.
#[derive(Clone, Copy)]
pub struct Options {
    pub colour: bool,
    pub picture: bool,
    pub progress: bool,
    // Are offsets of command texts by position?
    pub by_position: bool,
    // Does a table say where each frame's record stands?
    pub records: bool,
    // The folder of the definitions, 0 where none is named.
    pub folder: usize,
    // The firmware that wrote the capture.
    pub firmware: usize,
    // Are beams a family of their own?
    pub family: bool,
    // Is a page of totals a table in words?
    pub words: bool,
    // Does a page of coverage begin with what was never tried?
    pub missing: bool,
    // The code of the region by which all frames are decoded, if one is named.
    pub has_region: bool,
    pub region: u64,
    // How many arguments are no options, and the first three of them.
    pub count: usize,
    pub file: usize,
    pub second: usize,
    pub third: usize,
    // The option that the next argument is for.
    open: Option<Taker>,
    // The first option that the word does not take.
    wrong: Option<usize>,
    // Is the firmware said by something else than a number?
    is_unnumbered: bool,
    // Are the beams said by a word that there isn't?
    is_unread: bool,
    // Is the region said by something else than a number?
    is_uncoded: bool,
}

// The options that take the argument behind them.
#[derive(Clone, Copy, PartialEq, Eq)]
enum Taker {
    Definitions,
    Firmware,
    Beams,
    Region,
}

impl Options {
    fn new() -> Self {
        Options {
            colour: false,
            picture: false,
            progress: false,
            by_position: false,
            records: false,
            folder: 0,
            firmware: 2,
            family: false,
            words: false,
            missing: false,
            has_region: false,
            region: 0,
            count: 0,
            file: 0,
            second: 0,
            third: 0,
            open: None,
            wrong: None,
            is_unnumbered: false,
            is_unread: false,
            is_uncoded: false,
        }
    }

    fn with_folder(mut self, k: usize) -> Self {
        self.folder = k;
        self.open = None;
        self
    }

    fn with_firmware(mut self, bytes: &[u8]) -> Self {
        self.open = None;
        match read_numeral(bytes) {
            Some(number) => self.firmware = number as usize,
            None => self.is_unnumbered = true,
        }
        self
    }

    fn with_beams(mut self, bytes: &[u8]) -> Self {
        self.open = None;
        match bytes {
            b"marker" => self.family = false,
            b"family" => self.family = true,
            _ => self.is_unread = true,
        }
        self
    }

    fn with_region(mut self, bytes: &[u8]) -> Self {
        self.open = None;
        match read_numeral(bytes) {
            Some(number) => {
                self.has_region = true;
                self.region = number;
            }
            None => self.is_uncoded = true,
        }
        self
    }

    // One more argument that is no option.
    fn with_other(mut self, k: usize) -> Self {
        match self.count {
            0 => self.file = k,
            1 => self.second = k,
            _ => self.third = k,
        }
        self.count = wrapping_add_usize(self.count, 1);
        self
    }

    fn with_colour(mut self) -> Self {
        self.colour = true;
        self
    }

    fn with_picture(mut self) -> Self {
        self.picture = true;
        self
    }

    fn plain(mut self) -> Self {
        self.colour = false;
        self.picture = false;
        self
    }

    fn with_progress(mut self) -> Self {
        self.progress = true;
        self
    }

    fn with_position(mut self) -> Self {
        self.by_position = true;
        self
    }

    fn with_records(mut self) -> Self {
        self.records = true;
        self
    }

    fn in_words(mut self) -> Self {
        self.words = true;
        self
    }

    fn with_missing(mut self) -> Self {
        self.missing = true;
        self
    }

    fn opened(mut self, option: Taker) -> Self {
        self.open = Some(option);
        self
    }

    fn with_wrong(mut self, k: usize) -> Self {
        self.wrong = self.wrong.or(Some(k));
        self
    }
}

// Is this an option, known or not?
fn is_option(bytes: &[u8]) -> bool {
    bytes.starts_with(b"--")
}

fn take_option(options: Options, k: usize, bytes: &[u8]) -> Options {
    match bytes {
        b"--definitions" => options.opened(Taker::Definitions),
        b"--plain" => options.plain(),
        b"--colour" => options.with_colour(),
        b"--picture" => options.with_picture(),
        b"--progress" => options.with_progress(),
        b"--firmware" => options.opened(Taker::Firmware),
        b"--by-position" => options.with_position(),
        b"--records" => options.with_records(),
        b"--beams" => options.opened(Taker::Beams),
        b"--region" => options.opened(Taker::Region),
        b"--words" => options.in_words(),
        b"--missing" => options.with_missing(),
        _ => options.with_wrong(k),
    }
}

fn take_bytes(options: Options, k: usize, bytes: &[u8]) -> Options {
    match options.open {
        Some(Taker::Definitions) => options.with_folder(k),
        Some(Taker::Firmware) => options.with_firmware(bytes),
        Some(Taker::Beams) => options.with_beams(bytes),
        Some(Taker::Region) => options.with_region(bytes),
        None if is_option(bytes) => take_option(options, k, bytes),
        None => options.with_other(k),
    }
}

fn take_argument(rt: &impl Env, options: Options, k: usize) -> Options {
    let mut bytes = io::buffer();
    let n = argument(rt, k, &mut bytes);
    take_bytes(options, k, &bytes[..n])
}

// Is argument k an option that is none of those that a word takes?
fn is_foreign(rt: &impl Env, k: usize, takes: &[u8]) -> bool {
    let mut bytes = io::buffer();
    let n = argument(rt, k, &mut bytes);
    is_option(&bytes[..n]) && find_field(takes, &bytes[..n]) == count_pieces(takes, 9)
}

// One more argument of a word that takes these options.
fn take_one(rt: &impl Env, options: Options, k: usize, takes: &[u8]) -> Options {
    if options.open.is_none() && is_foreign(rt, k, takes) {
        return options.with_wrong(k);
    }
    take_argument(rt, options, k)
}

fn take_all(rt: &impl Env, takes: &[u8]) -> Options {
    let end = argument_count(rt);
    let mut options = Options::new();
    for k in 2..end {
        options = take_one(rt, options, k, takes);
    }
    options
}

fn say_argument(rt: &impl Env, k: usize) {
    let mut bytes = io::buffer();
    let n = argument(rt, k, &mut bytes);
    io::write_all(STDERR_FILENO, &bytes[..n]);
}

fn fail_option(rt: &impl Env, k: usize) {
    io::write_all(STDERR_FILENO, b"tap: ");
    say_argument(rt, 1);
    io::write_all(STDERR_FILENO, b" takes no ");
    say_argument(rt, k);
    io::write_all(STDERR_FILENO, b": 'tap help ");
    say_argument(rt, 1);
    fail(b"' says what it takes\n");
}

// Says which option lacks its argument, or has one that it does not take. Is there such an option?
fn fail_argument(options: Options) -> bool {
    let open = options.open;
    if open == Some(Taker::Definitions) {
        fail(b"tap: --definitions takes a folder\n");
        return true;
    }
    if open == Some(Taker::Firmware) || options.is_unnumbered {
        fail(b"tap: --firmware takes 2 or 3\n");
        return true;
    }
    if open == Some(Taker::Beams) || options.is_unread {
        fail(b"tap: --beams takes marker or family\n");
        return true;
    }
    if open == Some(Taker::Region) || options.is_uncoded {
        fail(b"tap: --region takes the code of an F line\n");
        return true;
    }
    false
}

// The options, if they can be taken; where the number of arguments does not fit the word its `usage` is said.
fn judged(rt: &impl Env, options: Options, fits: bool, usage: &[u8]) -> Option<Options> {
    if let Some(k) = options.wrong {
        fail_option(rt, k);
        return None;
    }
    if fail_argument(options) {
        return None;
    }
    if !fits {
        fail(usage);
        return None;
    }
    if region_bits(options.firmware) == 0 {
        refuse_capture(Refusal::Firmware(options.firmware));
        return None;
    }
    Some(options)
}

// The options of a word that takes so many arguments, and the options in `takes`, parted by tabs.
pub fn read(rt: &impl Env, count: usize, takes: &[u8], usage: &[u8]) -> Option<Options> {
    let options = take_all(rt, takes);
    judged(rt, options, options.count == count, usage)
}

// The same of a word that takes one argument or more.
pub fn read_some(rt: &impl Env, takes: &[u8], usage: &[u8]) -> Option<Options> {
    let options = take_all(rt, takes);
    judged(rt, options, options.count != 0, usage)
}

// The first argument from k on that is no option and belongs to none; the number of arguments where there is none.
pub fn next_file(rt: &impl Env, from: usize) -> usize {
    let end = argument_count(rt);
    let mut options = Options::new();
    for k in 2..end {
        let before = options.count;
        options = take_argument(rt, options, k);
        if options.count != before && from <= k {
            return k;
        }
    }
    end
}
