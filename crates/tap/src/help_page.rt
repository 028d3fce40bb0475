// What `tap help` and `tap help WORD` print, with the last line of the output.
use files::arguments::{argument, argument_count};
use output::outcome::{fail, fail_word, succeed};
use output::prose::say;
use std::rt::Env;

// The words, and what holds for all of them.
fn help_all() {
    say(
        b"tap shows the Z-Wave frames of a capture, and checks the definitions that name them.

  tap frames FILE    the frames of a capture as a table
  tap show FILE N    frame N of a capture whole
  tap check FILE     is a definition text accepted, and if not, what is wrong with it
  tap overlaps FILE  can two headers of a frame text hold together, and does their order matter
  tap sort FILE      a frame text with its headers sorted by name
  tap tidy FILE      a command text with S for U
  tap list FILE N    the listing of frame N's header, as a dealer's program writes it
  tap judge FILE N LISTING
                     is a dealer's listing ours, and if not, which line differs
  tap totals FILE ..
                     what captures come to: frames by kind and rate, beams, what was refused
  tap xml FILE       a frame text as the XML that other makers exchange
  tap text FILE      such an XML as a frame text
  tap coverage FILE CAPTURE ..
                     what captures have tried of a frame text, and what none has
  tap help           this page
  tap help WORD      what a word does, and what its FILE is

FILE may be -, which means standard input. The last line of the output is ok, or 'refused N V' (a
refusal: its number N and the value V that it carries), or failed, after a line on standard error
that says why, or for judge 'differs L', or for overlaps 'overlaps N'. bin/tap ends with status 0, 1
or 2, for differs and overlaps with 1.
",
    );
    succeed();
}

fn help_frames() {
    say(
        b"tap frames FILE: the frames of a capture as a table, one a line: number, direction, rate, RSSI,
the header's name, home id, source, destination, length, is the checksum right, and the command's
name, or its first two bytes where no definition names it; behind it (cut) where not all bytes of a
field are there. A beam says how often it was heard. A frame without a name says by which refusal,
in words and with its number. Of a multicast the destination is how many nodes it is for, and then
which, with .. where there is no room for all; tap show gives them all.

  --definitions FOLDER    the definitions that name frames and commands: frames.txt and commands/
                          in it. Without it that is definitions below the current folder; bin/tap
                          says where its own are.
  --colour, --plain       in colour or without, as the last of them says; bin/tap begins with
                          --colour for a terminal
  --picture               for tap show: a table has no picture
  --progress              every 1000 frames a count on standard error
  --records               two columns more: the number of the frame's record in its payload, from 0,
                          and the byte at which that record begins, also from 0
  --firmware N            which capture firmware wrote it: 2, as without this option, or 3, which
                          says regions in five bits
  --beams family          only what repeats, or is too short for any other frame, is a beam, and says
                          its node, the hash of its home id and at Long Range its power. Without this
                          option, or by --beams marker, all that starts with 55 is one
  --by-position           offsets in command texts count the lines of the text, not what is there

Where the frame text is missing or refused, no frame has a name. The last line of the output is
failed then, or 'refused N V' with that refusal.

A capture whose first byte is 5b, the opening bracket of a record, is one raw PTI payload. Any
other is hex text: a payload on each line, in upper or lower case, with blanks between bytes as you
like. # starts a comment that goes on to the end of its line, and empty lines are skipped. A line
that is no hex text is passed over, unless it comes before any payload: then the file is no capture.
A payload has at most 65535 bytes. A longer one is refused by 4, with its length, and the others go
on. The last line of the output is for the first refusal, or failed where a line was passed over.
",
    );
    succeed();
}

fn help_show() {
    say(
        b"tap show FILE N: frame N of a capture, by the number that tap frames gives it. First how it was
heard, its record (from 0), the byte at which that begins and the payload (from 1), and its bytes.
Then the fields of its header as a tree: name, bits, value and symbol of each. Then its command's
parameters as a tree: name, bytes in the command, value and symbol of each, how many bytes a field
has of those that it wants where it is cut, and the bytes that they leave. Below a bit mask stand the
nodes that it addresses. Where no header holds it says by which refusal, and so does the last line.

  --picture    a letter before each field, and behind the fields the header's bits as a picture, with
               the letter of its field below each; bin/tap begins with --picture for a terminal
  --plain      without picture and colour

It takes the other options of tap frames too. 'tap help frames' says what a capture is.
",
    );
    succeed();
}

fn help_check() {
    say(
        b"tap check FILE: is a definition text accepted? If not, the first line that is wrong: its number,
the line itself, with <TAB> for a tab and \\xNN for a byte that can't be printed, what is wrong
with it, and what would be right.

  tap check --frame FILE      take it for a frame text
  tap check --command FILE    take it for a command text

Without these the first line that begins with a letter and a tab decides: F, B, H, P, V, D and E
are the letters of frame texts, and Q, G, R, A, T, S, U, K and M those of command texts. An empty
text is that of a command without parameters. U is the old letter of an S: see 'tap help tidy'.

The number says why the line is refused, and after it the last line of the output has the line's:
  refused 1 L    line L is none of the forms
  refused 2 L    a limit is passed at line L; L is 0 for a text over 60000 bytes
  refused 3 L    line L belongs to nothing above it, or has what its place forbids
docs/AUTHORS.md has the forms and the limits.
",
    );
    succeed();
}

fn help_tidy() {
    say(
        b"tap tidy FILE: a command text with the letter of each U line an S. A U line is read as an S line, and
new texts use S. Nothing else of the text is moved: its length, its line numbers and what every
command is decoded to stay as they are. FILE itself is not written to. bin/tap puts the text on
standard output and the last line on standard error, so the text can go into a file:

  bin/tap tidy old.txt >new.txt

A text that is refused, as tap check says it, gives no text: the last line is 'refused N V' then.
",
    );
    succeed();
}

fn help_overlaps() {
    say(
        b"tap overlaps FILE: can two headers of a frame text hold for one MPDU? Headers of one base are apart if
both have a V line on one path with other values, and that path finds the same field by both. So it
is where one of them has no outer P line of the path's first name: then only the base's field is
found. So it is also where the P lines of both say the same, line by line, up to the one to which
the path leads; for that the P lines of both must stand in their order, and no two of one list may
have one name.

A line for each pair that cannot be told apart: number and name of both, and why: 'no V line on a
common path', 'the same values on their common paths', or 'other values, in fields of their own'.
Where there is none the text is harmless: no MPDU is held by two headers, so no order of the H blocks
matters, and 'tap sort' changes numbers only. Else the last line is 'overlaps N', for N pairs. A pair
that is listed may still be apart: other values of one bit, as seen by other fields, are not tried.
",
    );
    succeed();
}

fn help_sort() {
    say(
        b"tap sort FILE: a frame text with its H blocks (an H line and its P and V lines) sorted by name, byte by
byte, among the places where H blocks stood; those of one name stay as they stood, and so does every
other line. FILE itself is not written to. bin/tap puts the text on standard output, and on standard
error which H and P numbers moved, and the last line. So the text can go into a file:

  bin/tap sort old.txt >new.txt

Where 'tap overlaps' says that the text is harmless, every MPDU is decoded as before but for these
numbers. A text that is refused, as tap check says it, gives no text: the last line is 'refused N V'.
",
    );
    succeed();
}

fn help_list() {
    say(
        b"tap list FILE N: the listing of frame N's header: a line for each of its rows, seven decimal numbers
parted by tabs, and last the number of its header among the H lines of the frame text, from 0. The
seven are the P line's number, the row of the field that it is inside of, plus 1, or 0, its first
bit, how many bits it has, whether it has a value, the value, and its symbol's number or 0. bin/tap
puts the listing on standard output and the last line on standard error, so it can go into a file:

  bin/tap list house.hex 7 >ours.txt

A frame whose header is refused gives no listing: the last line is 'refused N V' then. It takes
--definitions, --firmware and --beams as tap frames does.
",
    );
    succeed();
}

fn help_judge() {
    say(
        b"tap judge FILE N LISTING: is the listing in a file that of frame N's header, byte by byte? It says yes,
or which of its lines is the first that differs and what ours has there, and which header is ours.
The rows are held against those of the header that the listing's last line names, whether that
header holds or not; the last line differs where only the header is wrong, where there is no such
header, or where rows are missing. LISTING may be -, and 65536 bytes of it are read.

The last line of the output is ok for yes, 'differs L' where line L differs, with status 1, or
'refused N V': 1 to 7 as tap show says them, or 16 with the first line that is not of the form.
docs/SUPPORT.md has examples. It takes --definitions, --firmware and --beams as tap frames does.
",
    );
    succeed();
}

fn help_totals() {
    say(
        b"tap totals FILE ..: what the captures in all FILEs come to, as one page, a count a line: 'key K R N' for N
frames whose H line has the key K, heard at the rate R (0 is 9.6 kbit/s, 1 is 40, 2 is 100, 3 Long
Range); of these 'wrong N' with a wrong checksum; 'beams N', and 'repeats N' for how often they stood
there; 'bytes N' of all frames; 'refused 5 N', 'refused 6 N' and 'refused 7 N' for frames without a
name, by the number of the refusal. The counts by key, the beams and the refused are all frames.

  --words        a table in words instead: kinds by rate, with shares, and what was refused and why
  --region CODE  the code of an F line, by which all frames are decoded; without it each payload is
                 decoded by the region of its first frame
  --progress     every 1000 payloads a count on standard error

A payload that is refused is not counted, standard error says which and why, and the last line of the
output is for the first of them. It takes --definitions, --firmware and --beams as tap frames does.
",
    );
    succeed();
}

fn help_xml() {
    say(
        b"tap xml FILE: an accepted frame text as FrameDefinition XML, one tag a line. docs/XML.md says how each
line and field is written. bin/tap puts the XML on standard output and the last line on standard
error, so it can go into a file, and what tap text makes of that is FILE, byte by byte:

  bin/tap xml ours.txt >ours.xml

XML has an order of its own, so the text has to be in plain form: all F lines, then each B line with
its P lines, then each H line with its P lines and behind them its V lines, then each D line with its
E lines. The last line is 'refused 15 L' where line L is the first out of that order. A text that is
not accepted is refused as tap check says it. A refusal and its reason go to standard error.
",
    );
    succeed();
}

fn help_text() {
    say(
        b"tap text FILE: a FrameDefinition XML, as other makers write it, as a frame text in plain form.
Elements and attributes may come in any order, self-closing or not, with white space between them and
the five named escapes in values; an XML declaration may come first. Comments, CDATA, other
references, single quotes, and elements and attributes that the schema does not have are not read.
bin/tap puts the text on standard output and the last line on standard error:

  bin/tap text theirs.xml >frames.txt

What is not read is refused by 14: the last line is 'refused 14 N', N the byte's place from 0, and
before it come line, column and what may be wrong there. An XML that says a text that is not accepted
is refused by 1, 2 or 3 with the line of that text, as tap check says it. A refusal and its reason go
to standard error. At most 524287 bytes of XML are read. docs/XML.md has every element and attribute.
",
    );
    succeed();
}

fn help_coverage() {
    say(
        b"tap coverage FILE CAPTURE ..: how often each line of a frame text occurred in the frames of captures, so
that its author sees what no capture has tried. First how many of its headers, fields and symbols
were tried, and of the refusals 5, 6 and 7. Then the text in its own order: each kind of frame (an H
line) with its count, under it, and under each base header, its fields (P lines), and under each
define set its symbols (E lines), with their values; last the refusals. What did not occur says never
instead of a count. A field counts where it is there, and a symbol where a field has its value.

  --missing      behind the first numbers all that did not occur, one a line: a field by its path and
                 with the header that it is of. The fields of a header that did not occur are left out
  --region CODE  the code of an F line, by which all frames are decoded; without it each frame is
                 decoded by its own region
  --progress     every 1000 payloads a count on standard error

Each frame is decoded at its own rate, and a wrong checksum does not matter. A beam has no header and
is not counted. A payload that is refused is not counted, standard error says which and why, and the
last line of the output is for the first of them. It takes --firmware and --beams as tap frames does.
FILE or one CAPTURE may be -.
",
    );
    succeed();
}

// The page of a word.
fn help_word(word: &[u8]) {
    match word {
        b"frames" => help_frames(),
        b"show" => help_show(),
        b"check" => help_check(),
        b"tidy" => help_tidy(),
        b"list" => help_list(),
        b"judge" => help_judge(),
        b"totals" => help_totals(),
        b"xml" => help_xml(),
        b"text" => help_text(),
        b"overlaps" => help_overlaps(),
        b"sort" => help_sort(),
        b"coverage" => help_coverage(),
        b"help" => help_all(),
        _ => fail_word(word),
    }
}

// `tap help`, `tap help WORD`.
pub fn help(rt: &impl Env) {
    match argument_count(rt) {
        2 => help_all(),
        3 => {
            let mut word = io::buffer();
            let n = argument(rt, 2, &mut word);
            help_word(&word[..n]);
        }
        _ => fail(b"tap: help takes one word, or none\n"),
    }
}
