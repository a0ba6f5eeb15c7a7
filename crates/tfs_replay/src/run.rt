// One record: its request is run, and its answer held against the one expected.
ghost use Rattle.std.specs.Prelude.{◌≡◌};
ghost use Rattle.tfs_spec.specs.Check.{consistent, check};
ghost use Rattle.tfs_spec.specs.Replays.{run, agrees};
ghost use Rattle.tfs_trace.specs.Told.{span_of, call_of, expected_of, Inside, ExpectedInside, InsideRecord};
ghost use Rattle.tfs_replay.specs.Agree.{wanted};

use crate::agree::{answer_agrees, read_agrees};
use tfs_change::{create_step, remove_step};
use tfs_steps::free::free_step;
use tfs_trace::{Call, Expected, Record, Span};
use tfs_transfer::compare::compare_step;
use tfs_transfer::write_step;

// The bytes of a span of the trace.
#[tactic(auto, unfolding(lists::specs::Lists::part))]
fn bytes_of<'a>(trace: &'a [u8], span: Span) -> &'a [u8]
    requires { Inside trace.now span }
    ensures { result.now ≡ span_of trace.now span }
{
    &trace[span.at..span.at + span.len]
}

// The bytes that a read is expected to give; none where it is to be refused.
fn wanted_of<'a>(trace: &'a [u8], expected: Expected) -> &'a [u8]
    requires { ExpectedInside trace.now expected }
    ensures { result.now ≡ wanted trace.now expected }
{
    match expected {
        Expected::Bytes(span) => bytes_of(trace, span),
        _ => &[],
    }
}

// Runs the request of a record; whether its answer is the one expected.
pub fn run_record(image: &mut [u8], trace: &[u8], item: Record) -> bool
    requires passed { check 512 image.old ≡ consistent }
    requires inside { InsideRecord trace.now item }
    ensures agrees { result ≡ agrees (run 512 image.old (call_of trace.now item.call)) (expected_of trace.now item.expected) }
    ensures image { image.new ≡ (run 512 image.old (call_of trace.now item.call)).image }
    ensures stays { check 512 image.new ≡ consistent }
{
    let expected = item.expected;
    match item.call {
        Call::Create { name, size } => {
            answer_agrees(create_step(image, bytes_of(trace, name), size), expected)
        }
        Call::Remove { name } => {
            let removed = remove_step(image, bytes_of(trace, name));
            answer_agrees(removed.map(|()| 0), expected)
        }
        Call::Read { name, offset, len } => {
            let wanted = wanted_of(trace, expected);
            read_agrees(
                compare_step(image, bytes_of(trace, name), offset, len, wanted),
                expected,
            )
        }
        Call::Write {
            name,
            offset,
            bytes,
        } => {
            let written = write_step(image, bytes_of(trace, name), offset, bytes_of(trace, bytes));
            answer_agrees(written.map(|moved| moved.count), expected)
        }
        Call::Free => answer_agrees(Ok(free_step(image)), expected),
    }
}
