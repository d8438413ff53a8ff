// Lists recordings: the files that the arguments name, `-` for standard input, or standard input where there is no argument.
#![tactic(auto)]

ghost use Rattle.std.specs.Prelude.{◌≡◌, ◌≤◌, length};

use std::env::{Env, FillError};
use std::fs::{File, Files};
use std::io::Read;
use std::{io, str};
use uslp_kinds::written;
use uslp_listing::{LISTING_ROOM, MAX_RECORDING_LEN};

// An argument has at most so many octets.
const PATH_ROOM: usize = 4096;

// One octet more than a recording may have, so that a longer one is told apart.
const RECORDING_ROOM: usize = MAX_RECORDING_LEN + 1;

fn main(rt: HostRuntime) -> io::Result<()> {
    list_all(&rt)
}

// By `arg`: std's `args` is an error as a whole where one name is not UTF-8, and here that name alone is told.
fn list_all<R: Env + Files + Input + Print + Eprint + Alloc>(rt: &R) -> io::Result<()> {
    let mut path = [0u8; PATH_ROOM];
    if let Err(FillError::NotPresent) = rt.arg(1, &mut path) {
        return list_from(rt, &mut rt.reader());
    }
    for i in 1..usize::MAX {
        match rt.arg(i, &mut path) {
            Ok(length) => list_named(rt, &path[..length])?,
            Err(FillError::TooLong) => eprintln!(rt; "argument: File name too long")?,
            Err(FillError::NotPresent) => break,
        }
    }
    Ok(())
}

fn list_named<R: Files + Input + Print + Eprint + Alloc>(rt: &R, path: &[u8]) -> io::Result<()> {
    let Ok(path) = str::from_utf8(path) else {
        let name = String::from_utf8_lossy(rt.alloc(), path)?;
        return eprintln!(rt; "{name}: the name is not UTF-8");
    };
    if path == "-" {
        return list_from(rt, &mut rt.reader());
    }
    match File::open(rt, path) {
        Ok(mut file) => list_from(rt, &mut file),
        Err(error) => fail(rt, path, error),
    }
}

// A line on standard error: what failed, a colon and the system's text.
fn fail<R: Eprint + Alloc>(rt: &R, what: &str, error: io::Error) -> io::Result<()> {
    let told = format!(in rt.alloc(); "{error}")?;
    let text = without_number(told.as_str());
    eprintln!(rt; "{what}: {text}")
}

fn without_number(told: &str) -> &str {
    match told.split_once(" (os error ") {
        Some((text, _)) => text,
        None => told,
    }
}

// How much of the buffer was filled goes beside it, since the memory is fixed.
fn list_from<R: Print, I: Read>(rt: &R, input: &mut I) -> io::Result<()> {
    let mut recording = [0u8; RECORDING_ROOM];
    let n = read_full(input, &mut recording);
    print_listing(rt, &recording[..n])
}

// Reads until the buffer is full, the input ends or a read fails. What came before counts, which std's `read_exact` does not say.
fn read_full<I: Read>(input: &mut I, buf: &mut [u8]) -> usize
    ensures { result ≤ length buf.new }
{
    let mut done = 0;
    while done < buf.len() {
        let n = input.read(&mut buf[done..]).unwrap_or(0);
        if n == 0 {
            break;
        }
        done += n;
    }
    done
}

fn print_listing(rt: &impl Print, recording: &[u8]) -> io::Result<()> {
    let mut text = blank();
    let length = uslp_listing::list(recording, &mut text);
    rt.write_all(written(length, &text))
}

// Apart, so that no other proof computes on so long an array.
fn blank() -> [u8; LISTING_ROOM]
    ensures { 524400 ≡ length result }
{
    [0; LISTING_ROOM]
}
