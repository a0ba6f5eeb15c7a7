// Runs packed test cases through the romfs requests and compares refusal, place, values, content, and the hash of the image. One
// line for each case that differs, then the counts. The input is that of host/generate:
// pack romfs crates/rom_cases/stdin --seed 1 --cases 1000
#![tactic(auto)]

use packed::cases::{Case, Outcome, differing, done, granted, next, one, refused};
use romfs::{Error, Header};
use std::io;
use std::io::Read;

// The requests, by their numbers in the packed form.
#[derive(Clone, Copy)]
enum Request {
    Check,
    Find,
    Entry,
    ContentLength,
    Content,
}

// A number that is no request's.
#[derive(Clone, Copy)]
struct Unknown;

impl TryFrom<u8> for Request {
    type Error = Unknown;

    fn try_from(number: u8) -> Result<Request, Unknown> {
        match number {
            17 => Ok(Request::Check),
            18 => Ok(Request::Find),
            19 => Ok(Request::Entry),
            20 => Ok(Request::ContentLength),
            21 => Ok(Request::Content),
            _ => Err(Unknown),
        }
    }
}

// ---- what the requests give

fn refusal(error: Error) -> Outcome {
    refused(error.number(), error.place())
}

// The values of an entry.
fn values(header: Header) -> Outcome {
    granted(
        6,
        [
            header.file_type.number(),
            u32::from(header.executable),
            header.info,
            header.size,
            header.next,
            header.name_length,
        ],
    )
}

// No table has the refusal of a content that is too long, nor that of a number that is no request's.
fn no_case() -> Outcome {
    refused(1000, 0)
}

// The length of a content.
fn length(content: &[u8]) -> Outcome {
    u32::try_from(content.len()).map_or(no_case(), one)
}

fn outcome(case: &Case<'_>) -> Outcome {
    let at = case.number;
    match Request::try_from(case.request) {
        Ok(Request::Check) => romfs::check(case.image)
            .map_err(Error::Inconsistent)
            .map_or_else(refusal, |()| done()),
        Ok(Request::Find) => romfs::find(case.image, at, case.name).map_or_else(refusal, one),
        Ok(Request::Entry) => romfs::entry(case.image, at).map_or_else(refusal, values),
        Ok(Request::ContentLength) => {
            romfs::content_length(case.image, at).map_or_else(refusal, one)
        }
        Ok(Request::Content) => length(romfs::content(case.image, at)),
        Err(Unknown) => no_case(),
    }
}

// The content that is asked for, and nothing for the other requests.
fn content<'a>(case: &'a Case<'_>) -> &'a [u8] {
    match Request::try_from(case.request) {
        Ok(Request::Content) => romfs::content(case.image, case.number),
        _ => &[],
    }
}

// ---- cases

// Whether case number k comes out as expected.
fn comes_out<R: Read>(rt: &impl Print, input: &mut R, k: u32) -> io::Result<bool> {
    let mut name = [0u8; 4096];
    let mut buf = [0u8; 4096];
    let mut image = [0u8; 65536];
    let case = next(input, &mut name, &mut buf, &mut image)?;
    case.comes_out(rt, input, k, outcome(&case), content(&case))
}

fn main(rt: HostRuntime) -> io::Result<()> {
    let mut input = rt.reader();
    let count = packed::number(&mut input)?;
    let differ = differing(count, |k| comes_out(&rt, &mut input, k))?;
    println!(rt; "{count} cases, {differ} differ")
}
