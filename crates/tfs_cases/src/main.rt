// Runs packed test cases through the requests of TFS and of the timing file, and compares refusal, place, values, name, and the
// hash of image and buffer afterwards. One line for each case that differs, then the counts. The input is that of host/generate:
// pack tfs crates/tfs_cases/stdin --seed 1 --cases 700
#![tactic(auto)]

mod pump; // pump.rt: the requests on the timing file
mod request; // request.rt: the requests, by their numbers

use crate::pump::timing;
use crate::request::{Request, Store, Unknown, Volume};
use packed::cases::{Case, Outcome, differing, done, granted, next, one, refused};
use std::io;
use std::io::Read;
use tfs::{Entry, Error, Name, ReplayError, Transferred};

// ---- what the requests give

pub fn refusal(error: Error) -> Outcome {
    refused(error.number(), error.place())
}

// The bytes that were read or written, and the blocks that they lie in.
fn moved(moved: Transferred) -> Outcome {
    granted(2, [moved.count, moved.blocks, 0, 0, 0, 0])
}

// What stands in a slot: 0 for nothing, or 1, the inode number and the size of a file.
fn listed(slot: Option<Entry>) -> Outcome {
    slot.map_or(one(0), |entry| {
        granted(3, [1, entry.inode, entry.size, 0, 0, 0])
    })
}

// How a replay ended, with a number of records: 0 for all replayed, 1 and 2 for a stop.
fn end(end: u32, number: usize) -> Outcome {
    granted(2, [end, (number % 4294967296) as u32, 0, 0, 0, 0])
}

fn stop(error: ReplayError) -> Outcome {
    match error {
        ReplayError::Malformed(record) => end(1, record),
        ReplayError::Differs(record) => end(2, record),
        ReplayError::Inconsistent(fault) => refused(fault.rule(), fault.place()),
    }
}

fn volume(request: Volume, case: &mut Case<'_>) -> Outcome {
    let Case { number, name, .. } = *case;
    let image = &mut *case.image;
    let buf = &mut *case.buf;
    match request {
        Volume::Check => tfs::check(image)
            .map_err(Error::Inconsistent)
            .map_or_else(refusal, |()| done()),
        Volume::Format => tfs::format(image, name).map_or_else(refusal, |()| done()),
        Volume::Create => tfs::create(image, name, number).map_or_else(refusal, one),
        Volume::Remove => tfs::remove(image, name).map_or_else(refusal, |()| done()),
        Volume::Read => tfs::read(image, name, number, buf).map_or_else(refusal, moved),
        Volume::Write => tfs::write(image, name, number, buf).map_or_else(refusal, moved),
        Volume::List => tfs::list(image, number).map_or_else(refusal, listed),
        Volume::FreeBytes => tfs::free_bytes(image)
            .map_err(Error::Inconsistent)
            .map_or_else(refusal, one),
        Volume::Replay => tfs::replay(image, buf).map_or_else(stop, |count| end(0, count)),
        Volume::Mend => tfs::mend(image)
            .map_err(Error::Inconsistent)
            .map_or_else(refusal, |()| done()),
    }
}

// The k-th store of a create, a remove or a write. Its k and the bytes of a write stand behind the image.
fn store<R: Read>(input: &mut R, request: Store, case: &mut Case<'_>) -> io::Result<Outcome> {
    let k = packed::long_number(input)? as usize;
    let mut room = [0u8; 69632];
    let bytes = packed::bytes(input, &mut room)?;
    let Case { number, name, .. } = *case;
    let image = &mut *case.image;
    let buf = &mut *case.buf;
    let answer = match request {
        Store::Create => tfs::create_store(image, name, number, k, buf),
        Store::Remove => tfs::remove_store(image, name, k, buf),
        Store::Write => tfs::write_store(image, name, number, bytes, k, buf),
    };
    Ok(answer.map_or_else(refusal, one))
}

// What a case's request gives. No table has the refusal of an unknown one.
fn outcome<R: Read>(input: &mut R, case: &mut Case<'_>) -> io::Result<Outcome> {
    match Request::try_from(case.request) {
        Ok(Request::Volume(request)) => Ok(volume(request, case)),
        Ok(Request::Store(request)) => store(input, request, case),
        Ok(Request::Timing(request)) => timing(input, request, case),
        Err(Unknown) => Ok(refused(1000, 0)),
    }
}

// The name that is asked for: that of a slot's listing.
fn listed_name(case: &Case<'_>) -> Option<Name> {
    let Ok(Request::Volume(Volume::List)) = Request::try_from(case.request) else {
        return None;
    };
    let entry = tfs::list(case.image, case.number).ok()??;
    Some(entry.name)
}

// ---- cases

// Whether case number k comes out as expected. Its text is the name that a slot's listing has, and empty for the other requests.
fn comes_out<R: Read>(rt: &impl Print, input: &mut R, k: u32) -> io::Result<bool> {
    let mut name = [0u8; 4096];
    let mut buf = [0u8; 69632];
    let mut image = [0u8; 69632];
    let mut case = next(input, &mut name, &mut buf, &mut image)?;
    let got = outcome(input, &mut case)?;
    match listed_name(&case) {
        Some(name) => case.comes_out(rt, input, k, got, name.as_bytes()),
        None => case.comes_out(rt, input, k, got, &[]),
    }
}

fn main(rt: HostRuntime) -> io::Result<()> {
    let mut input = rt.reader();
    let count = packed::number(&mut input)?;
    let differ = differing(count, |k| comes_out(&rt, &mut input, k))?;
    println!(rt; "{count} cases, {differ} differ")
}
