// Many sheets from data/, each named by an argument, through the listing program's own code: the name of each, and what
// is printed for it. What it must write is made by tools/sheets.py.
#![tactic(auto)]

use std::env::{Env, FillError};
use std::fs::{File, Files};
use std::io;
use std::io::{ErrorKind, Write};

// A sheet's name on a line of its own.
fn say<W: Write>(name: &[u8], to: &mut W) -> io::Result<()> {
    to.write_all(b"SHEET ")?;
    to.write_all(name)?;
    to.write_all(b"\n")
}

// The file of that name, where std can open it: it opens none whose name is not UTF-8.
fn open_named<R: Files>(rt: &R, name: &[u8]) -> io::Result<R::File> {
    let Ok(text) = std::str::from_utf8(name) else {
        return Err(io::Error::from(ErrorKind::InvalidInput));
    };
    File::open(rt, text)
}

// The sheet of that name, listed. (Never inlined: its room for a listing would be taken by `main`, where no argument is given too.)
#[inline(never)]
fn list_named<R: Files, W: Write>(rt: &R, name: &[u8], to: &mut W) -> io::Result<()> {
    say(name, to)?;
    let Ok(mut file) = open_named(rt, name) else {
        return to.write_all(b"is not there\n");
    };
    listed::list_from(&mut file, to)
}

// The name that an argument gives, where there is such an argument; one that is too long is no name.
fn name_given<'a, R: Env>(rt: &R, i: usize, room: &'a mut [u8]) -> Option<&'a [u8]> {
    match rt.arg(i, room) {
        Ok(n) => Some(&room[..n]),
        Err(FillError::NotPresent) => None,
        Err(FillError::TooLong) => Some(&room[..0]),
    }
}

fn main(rt: HostRuntime) -> io::Result<()> {
    let mut room = [0u8; 4096];
    for i in 1..usize::MAX {
        let Some(name) = name_given(&rt, i, &mut room) else {
            break;
        };
        list_named(&rt, name, &mut rt.stdout())?;
    }
    Ok(())
}
