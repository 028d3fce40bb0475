// The FILE that a word of the command names.
ghost use Rattle.std.specs.Prelude.{◌≤◌, length};
ghost use Rattle.files.specs.Input.{Opens, Reaches, Holds};

use crate::arguments::argument;
use check::same;
use output::errors::tell_error;
use output::outcome::{fail, fail_file};
use std::env::FillError;
use std::fs;
use std::io::{Error, ErrorKind, Read, Result};
use std::rt::{Env, Files};

// The errors of the system for an argument that there isn't or a name that cannot be one, and for either that is longer than the room for it.
const EINVAL: i32 = 22;

const ENAMETOOLONG: i32 = 36;

#[derive(Drop)]
enum Origin<R: Files + Input> {
    File(R::File),
    Standard(R::Reader),
}

// What is read: a file or standard input. It keeps why the system last didn't read on.
#[derive(Drop)]
pub struct Reader<R: Files + Input> {
    origin: Origin<R>,
    error: Error,
}

#[derive(Drop)]
pub enum File<R> {
    // It can be read, and its name has so many bytes, which the lent slice holds.
    Open(R, usize),
    // There is none: that is said already.
    Failed,
}

#[derive(Clone, Copy)]
pub enum Got {
    // So many bytes stand in the lent slice.
    Bytes(usize),
    // The system doesn't read on, and the reader's `error` says why.
    Unreadable,
}

impl<R: Files + Input> Reader<R> {
    fn new(origin: Origin<R>) -> Self {
        Reader {
            origin,
            error: Error::from_raw_os_error(0),
        }
    }

    // Why the system last didn't read on.
    pub fn error(&self) -> Error {
        self.error
    }

    // One read.
    pub fn read(&mut self, bytes: &mut [u8]) -> Got
        ensures { Holds bytes.new result }
    {
        let read = match &mut self.origin {
            Origin::File(file) => file.read(bytes),
            Origin::Standard(input) => input.read(bytes),
        };
        match read {
            Ok(n) => Got::Bytes(n),
            Err(error) => {
                self.error = error;
                Got::Unreadable
            }
        }
    }
}

// The file of a path of fewer than 4,096 bytes with no zero among them. A path is UTF-8: any other names no file.
pub fn open_path<R: Files>(rt: &R, path: &[u8]) -> Result<R::File> {
    if 4096 <= path.len() {
        return Err(Error::from_raw_os_error(ENAMETOOLONG));
    }
    if path.contains(&0) {
        return Err(Error::from_raw_os_error(EINVAL));
    }
    let text = str::from_utf8(path).map_err(|_| Error::from(ErrorKind::InvalidFilename))?;
    fs::open(rt, text)
}

// Is this what stands for standard input?
pub fn is_standard(name: &[u8]) -> bool {
    same(name, b"-")
}

// Is standard input used up once argument k was read, where `spent` says whether it was before?
pub fn is_spent(rt: &impl Env, k: usize, spent: bool) -> bool {
    if spent {
        return true;
    }
    let mut name = io::buffer();
    let n = argument(rt, k, &mut name);
    is_standard(&name[..n])
}

// The file of a name, where `-` means standard input.
pub fn open_name<R: Files + Input>(rt: &R, name: &[u8]) -> Result<Reader<R>> {
    if is_standard(name) {
        return Ok(Reader::new(Origin::Standard(rt.reader())));
    }
    Ok(Reader::new(Origin::File(open_path(rt, name)?)))
}

// Why there is no such argument.
fn error_of(why: FillError) -> Error {
    match why {
        FillError::NotPresent => Error::from_raw_os_error(EINVAL),
        FillError::TooLong => Error::from_raw_os_error(ENAMETOOLONG),
    }
}

// The file that argument k names.
pub fn open_argument<R: Env + Files + Input>(rt: &R, k: usize, name: &mut [u8]) -> File<Reader<R>>
    ensures { Opens name.new result }
{
    let n = match rt.arg(k, name) {
        Ok(n) => n,
        Err(why) => {
            tell_error(b"tap: the name of the FILE", error_of(why));
            fail(b"");
            return File::Failed;
        }
    };
    match open_name(rt, &name[..n]) {
        Ok(reader) => File::Open(reader, n),
        Err(error) => {
            fail_file(&name[..n], error);
            File::Failed
        }
    }
}

// One read, behind the first n bytes of the slice.
fn read_on<R: Files + Input>(reader: &mut Reader<R>, bytes: &mut [u8], n: usize) -> Got
    requires { n ≤ length bytes.old }
    ensures { Reaches bytes.old n result }
{
    reader.read(&mut bytes[n..])
}

// The bytes of a file, or as many as the slice has room for.
pub fn read_file<R: Files + Input>(reader: &mut Reader<R>, bytes: &mut [u8]) -> Got
    ensures { Holds bytes.new result }
{
    let mut n = 0;
    while n < bytes.len() {
        let Got::Bytes(more) = read_on(reader, bytes, n) else {
            return Got::Unreadable;
        };
        if more == 0 {
            return Got::Bytes(n);
        }
        n += more;
    }
    Got::Bytes(n)
}
