// Traces of TFS requests for C: records read and written, and replay. The header is tfs_trace.h; a slice passes as a pointer and then a length.
#![tactic(auto)]

ghost use Rattle.std.specs.Prelude.{◌≡◌};
ghost use Rattle.tfs_spec.specs.Replays.{replay};
ghost use Rattle.tfs_spec.specs.Traces.{read_record};
ghost use Rattle.tfs.specs.Told.{replay_told};
ghost use Rattle.tfs_trace_write.specs.Drafts.{written_told};
ghost use Rattle.tfs_trace_c.specs.Record.{given_of, entry, filled, asked, struct_of, record_in, Shaped, Placed, draft_of, write_entry, written_of, replayed, replayed_of};

use tfs::ReplayError;
use tfs_trace::{Call, Cursor, Expected, Record, Span};
use tfs_trace_write::{Draft, TooLarge, write_record};

// The numbers of a record; those that its kind does not have are 0.
#[repr(C)]
#[derive(Clone, Copy)]
pub struct TfsEntry {
    pub kind: u64,
    pub size: u64,
    pub offset: u64,
    pub length: u64,
    pub refusal: u64,
    pub value: u64,
}

// A record of a trace; name and bytes as position and length in it.
#[repr(C)]
#[derive(Clone, Copy)]
pub struct TfsRecord {
    pub entry: TfsEntry,
    pub name_at: u64,
    pub name_length: u64,
    pub bytes_at: u64,
    pub bytes_length: u64,
    pub next: u64,
}

// What writing answers: 0 and the length, or the refusal.
#[repr(C)]
#[derive(Clone, Copy)]
pub struct TfsWritten {
    pub refusal: u64,
    pub length: u64,
}

// What replay answers: the outcome and a number of records, or the check's refusal and its place.
#[repr(C)]
#[derive(Clone, Copy)]
pub struct TfsReplayed {
    pub outcome: u64,
    pub number: u64,
    pub refusal: u64,
    pub place: u64,
}

// ---- reading

// The answer that a record expects: the refusal, 0 for granted, and the result.
#[derive(Clone, Copy)]
struct Given {
    refusal: u64,
    value: u64,
    bytes: Span,
}

const NONE: Span = Span { at: 0, len: 0 };

fn of_expected(expected: Expected) -> Given
    ensures { result ≡ given_of expected }
{
    let (refusal, value, bytes) = match expected {
        Expected::Nothing => (0, 0, NONE),
        Expected::Bytes(bytes) => (0, 0, bytes),
        Expected::Amount(n) => (0, n as u64, NONE),
        Expected::Refusal(n) => (n as u64, 0, NONE),
    };
    Given {
        refusal,
        value,
        bytes,
    }
}

fn entry_of(kind: u64, size: u64, offset: u64, length: u64, given: Given) -> TfsEntry
    ensures { result ≡ entry kind size offset length given }
{
    TfsEntry {
        kind,
        size,
        offset,
        length,
        refusal: given.refusal,
        value: given.value,
    }
}

fn fill(entry: TfsEntry, name: Span, bytes: Span, next: usize) -> TfsRecord
    ensures { result ≡ filled entry name bytes next }
{
    TfsRecord {
        entry,
        name_at: name.at as u64,
        name_length: name.len as u64,
        bytes_at: bytes.at as u64,
        bytes_length: bytes.len as u64,
        next: next as u64,
    }
}

fn of_call(call: Call, given: Given, next: usize) -> TfsRecord
    ensures { result ≡ asked call given next }
{
    let result = given.bytes;
    match call {
        Call::Create { name, size } => {
            fill(entry_of(1, size as u64, 0, 0, given), name, result, next)
        }
        Call::Remove { name } => fill(entry_of(2, 0, 0, 0, given), name, result, next),
        Call::Read { name, offset, len } => fill(
            entry_of(3, 0, offset as u64, len as u64, given),
            name,
            result,
            next,
        ),
        Call::Write {
            name,
            offset,
            bytes,
        } => fill(entry_of(4, 0, offset as u64, 0, given), name, bytes, next),
        Call::Free => fill(entry_of(5, 0, 0, 0, given), NONE, result, next),
    }
}

// A record that was read, with the cursor behind it, or a malformed one.
fn of_record(read: Option<(Record, Cursor)>) -> TfsRecord
    ensures { result ≡ struct_of read.entry }
{
    match read {
        Some((record, next)) => of_call(record.call, of_expected(record.expected), next.at),
        None => TfsRecord {
            entry: TfsEntry {
                kind: 0,
                size: 0,
                offset: 0,
                length: 0,
                refusal: 0,
                value: 0,
            },
            name_at: 0,
            name_length: 0,
            bytes_at: 0,
            bytes_length: 0,
            next: 0,
        },
    }
}

// The record at a position of the trace.
#[unsafe(no_mangle)]
pub extern "C" fn tfs_trace_read(trace: &[u8], at: usize) -> TfsRecord
    ensures { (record_in trace.now result ≡ read_record trace.now at) × Shaped trace.now result × Placed trace.now at result }
{
    of_record(Cursor { trace, at }.record())
}

// ---- writing

#[tactic(auto, unfolding(crate::specs::Record::written_of))]
fn of_written(written: Result<usize, TooLarge>) -> TfsWritten
    ensures { result ≡ written_of (written_told written) }
{
    match written {
        Ok(n) => TfsWritten {
            refusal: 0,
            length: n as u64,
        },
        Err(error) => TfsWritten {
            refusal: error.number() as u64,
            length: 0,
        },
    }
}

// The record to be written, unless the kind is none.
fn draft_of(entry: TfsEntry) -> Option<Draft>
    ensures { result ≡ draft_of entry }
{
    match entry.kind {
        1 => Some(Draft::Create { size: entry.size }),
        2 => Some(Draft::Remove),
        3 => Some(Draft::Read {
            offset: entry.offset,
            len: entry.length,
        }),
        4 => Some(Draft::Write {
            offset: entry.offset,
        }),
        5 => Some(Draft::Free),
        _ => None,
    }
}

// Writes a record to the start of a buffer; a kind that is none is refused 33.
#[unsafe(no_mangle)]
pub extern "C" fn tfs_trace_write(
    out: &mut [u8],
    entry: TfsEntry,
    name: &[u8],
    bytes: &[u8],
) -> TfsWritten
    ensures { (result ≡ written_of (write_entry out.old entry name.now bytes.now).answer) × (out.new ≡ (write_entry out.old entry name.now bytes.now).buffer) }
{
    match draft_of(entry) {
        Some(draft) => of_written(write_record(
            out,
            draft,
            name,
            bytes,
            entry.refusal,
            entry.value,
        )),
        None => TfsWritten {
            refusal: 33,
            length: 0,
        },
    }
}

// ---- replay

fn ended(outcome: u64, number: usize) -> TfsReplayed
    ensures { result ≡ replayed outcome number 0 0 }
{
    TfsReplayed {
        outcome,
        number: number as u64,
        refusal: 0,
        place: 0,
    }
}

fn denied(refusal: u32, place: u32) -> TfsReplayed
    ensures { result ≡ replayed 3 0 refusal place }
{
    TfsReplayed {
        outcome: 3,
        number: 0,
        refusal: refusal as u64,
        place: place as u64,
    }
}

#[tactic(auto, unfolding(crate::specs::Record::replayed_of))]
fn of_replay(replay: Result<usize, ReplayError>) -> TfsReplayed
    ensures { result ≡ replayed_of (replay_told replay) }
{
    match replay {
        Ok(n) => ended(0, n),
        Err(ReplayError::Malformed(k)) => ended(1, k),
        Err(ReplayError::Differs(k)) => ended(2, k),
        Err(ReplayError::Inconsistent(fault)) => denied(fault.rule(), fault.place()),
    }
}

// Replays a trace on the volume.
#[unsafe(no_mangle)]
pub extern "C" fn tfs_replay(image: &mut [u8], trace: &[u8]) -> TfsReplayed
    ensures { (result ≡ replayed_of (replay 512 image.old trace.now).result) × (image.new ≡ (replay 512 image.old trace.now).image) }
{
    of_replay(tfs::replay(image, trace))
}
