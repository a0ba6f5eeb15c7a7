// Replays a trace on an image: two names are its arguments, of an image file and a trace file of at most 65,536 bytes each, which are only read.
// It prints one line: `0` and how many records were replayed, `1` and the number of a malformed one, `2` and that of one whose answer differs, `3` with the check's refusal and its place, or `4` for other trouble.
#![tactic(auto)]

ghost use Rattle.std.specs.Prelude.{◌≡◌, ◌≤◌, ◌↔◌, length, IsSome, IfOk, IfSome};

use reading::fill;
use std::env::{Env, FillError};
use std::fs::Files;
use std::io::Read;
use std::{fs, io, str};

// Room for a file and a byte more, so that one that is too long shows.
const ROOM: usize = 65537;

// The whole of a file, if a buffer holds it.
fn read_whole<'a, R: Read>(file: &mut R, buf: &'a mut [u8]) -> io::Result<Option<&'a mut [u8]>>
    ensures within { IfOk result (λ whole. IfSome whole (λ part. length part.now ≤ length buf.old)) }
    ensures fits { IfOk result (λ whole. IfSome (R.remaining file.old) (λ all. IsSome whole ↔ (length all ≤ length buf.old))) }
    ensures bytes { IfOk result (λ whole. IfSome (R.remaining file.old) (λ all. IfSome whole (λ part. part.now ≡ all))) }
{
    let len = fill(file, buf)?;
    let mut more = [0u8; 1];
    if file.read(&mut more)? != 0 {
        return Ok(None);
    }
    Ok(Some(&mut buf[..len]))
}

// The whole of an open file, if it can be read and a buffer holds it.
fn read_open<'a, R: Read + Drop>(file: R, buf: &'a mut [u8]) -> Option<&'a mut [u8]>
    ensures within { IfSome result (λ part. length part.now ≤ length buf.old) }
    ensures bytes { IfSome (R.remaining file) (λ all. IfSome result (λ part. part.now ≡ all)) }
{
    let mut open = file;
    match read_whole(&mut open, buf) {
        Ok(whole) => whole,
        Err(_) => None,
    }
}

// The whole of the file that argument k names. A name is text, as std's paths are: one that is not UTF-8 names no file.
fn read_file<'a, R: Env + Files>(rt: &R, k: usize, buf: &'a mut [u8]) -> Option<&'a mut [u8]>
    ensures { IfSome result (λ part. length part.now ≤ length buf.old) }
{
    let mut path = [0u8; 4096];
    let n = rt.arg(k, &mut path).ok()?;
    let name = str::from_utf8(&path[..n]).ok()?;
    let file = fs::File::open(rt, name).ok()?;
    read_open(file, buf)
}

// Whether there is an argument k.
fn has_arg(rt: &impl Env, k: usize) -> bool {
    let mut start = [0u8; 1];
    !matches!(rt.arg(k, &mut start), Err(FillError::NotPresent))
}

// Prints the line of an image and a trace, each the whole of its file.
fn print_line(
    rt: &impl Print,
    image: Option<&mut [u8]>,
    trace: Option<&mut [u8]>,
) -> io::Result<()> {
    let summary = match (image, trace) {
        (Some(image), Some(trace)) => replay_line::line(image, true, trace, true),
        _ => replay_line::line(&mut [], false, &[], false),
    };
    rt.write_all(summary.text().as_str().as_bytes())
}

fn main(rt: HostRuntime) -> io::Result<()> {
    // Before the return: behind it, the compiler would fill each twice.
    let mut image = [0u8; ROOM];
    let mut trace = [0u8; ROOM];
    if !has_arg(&rt, 2) || has_arg(&rt, 3) {
        return print_line(&rt, None, None);
    }
    let image = read_file(&rt, 1, &mut image);
    let trace = read_file(&rt, 2, &mut trace);
    print_line(&rt, image, trace)
}
