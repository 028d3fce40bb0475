// The files of the folder with the definitions.
ghost use Rattle.std.specs.Prelude.{◌≤◌, length};
ghost use Rattle.io.specs.Counts.{IsPrefixLen};
ghost use Rattle.files.specs.Folder.{Loads};

use crate::append::append;
use crate::arguments::argument;
use crate::input::open_path;
use output::outcome::tell_unreadable;
use std::io::Read;
use std::rt::{Env, Files};

// The folder that argument k names; without one `definitions` below the current folder.
fn put_folder(rt: &impl Env, k: usize, path: &mut [u8]) -> usize
    ensures { result ≤ length path.new }
{
    if k == 0 {
        return append(path, 0, b"definitions");
    }
    argument(rt, k, path)
}

// The path of a file in a part of the folder.
fn put_path(rt: &impl Env, folder: usize, part: &[u8], name: &[u8], path: &mut [u8]) -> usize
    ensures { result ≤ length path.new }
{
    let mut n = put_folder(rt, folder, path);
    n = append(path, n, part);
    append(path, n, name)
}

// Reads until the slice is full, the file ends or a read fails. Answers how many bytes the slice holds then.
fn fill(file: &mut impl Read, bytes: &mut [u8]) -> usize
    ensures { IsPrefixLen result bytes.new }
{
    let mut n: usize = 0;
    while n < bytes.len() {
        let Ok(more) = file.read(&mut bytes[n..]) else {
            return n;
        };
        if more == 0 {
            return n;
        }
        n += more;
    }
    n
}

fn load_from(
    rt: &(impl Env + Files),
    folder: usize,
    part: &[u8],
    name: &[u8],
    bytes: &mut [u8],
) -> Option<usize>
    ensures { Loads bytes.new result }
{
    let mut path = io::buffer();
    let n = put_path(rt, folder, part, name, &mut path);
    match open_path(rt, &path[..n]) {
        Ok(mut file) => Some(fill(&mut file, bytes)),
        Err(error) => {
            tell_unreadable(&path[..n], error);
            None
        }
    }
}

// A file of the folder that an argument names. That there is none is said.
pub fn load(rt: &(impl Env + Files), folder: usize, name: &[u8], bytes: &mut [u8]) -> Option<usize>
    ensures { Loads bytes.new result }
{
    load_from(rt, folder, b"/", name, bytes)
}

// The same of a file of its commands.
pub fn load_command(
    rt: &(impl Env + Files),
    folder: usize,
    name: &[u8],
    bytes: &mut [u8],
) -> Option<usize>
    ensures { Loads bytes.new result }
{
    load_from(rt, folder, b"/commands/", name, bytes)
}

// The same, without a word where there is none.
pub fn find_command(
    rt: &(impl Env + Files),
    folder: usize,
    name: &[u8],
    bytes: &mut [u8],
) -> Option<usize>
    ensures { Loads bytes.new result }
{
    let mut path = io::buffer();
    let n = put_path(rt, folder, b"/commands/", name, &mut path);
    let mut file = open_path(rt, &path[..n]).ok()?;
    Some(fill(&mut file, bytes))
}
