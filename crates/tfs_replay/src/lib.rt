// Replay of a trace on a consistent volume: its requests one after another, each answer against the one expected. The volume stays consistent, so the check is not run again.
#![tactic(auto)]

mod agree; // agree.rt: an answer against the one expected
mod run; // run.rt: one record

ghost use Rattle.std.specs.Prelude.{◌≡◌};
ghost use Rattle.tfs_spec.specs.Check.{consistent, check};
ghost use Rattle.tfs_spec.specs.Traces.{read_trace};
ghost use Rattle.tfs_spec.specs.Replays.{replay_on};
ghost use Rattle.tfs_replay.specs.Told.{replayed_told};

use crate::run::run_record;
use tfs_trace::Cursor;

// What stops a replay: the record, from 1, that is malformed, or whose request, which has been run, answers otherwise than expected.
#[derive(Clone, Copy, Debug, PartialEq, Eq)]
pub enum Stop {
    Malformed(usize),
    Differs(usize),
}

// Replays the records of the trace up to its end, and counts them.
pub fn replay_records(image: &mut [u8], trace: &[u8]) -> Result<usize, Stop>
    requires { check 512 image.old ≡ consistent }
    ensures result { replayed_told result ≡ (replay_on 512 image.old 0 (read_trace trace.now)).result }
    ensures image { image.new ≡ (replay_on 512 image.old 0 (read_trace trace.now)).image }
{
    let mut cursor = Cursor { trace, at: 0 };
    let mut done = 0;
    while cursor.at < trace.len() {
        let Some((record, next)) = cursor.record() else {
            return Err(Stop::Malformed(done + 1));
        };
        if !run_record(image, trace, record) {
            return Err(Stop::Differs(done + 1));
        }
        cursor = next;
        done += 1;
    }
    Ok(done)
}
