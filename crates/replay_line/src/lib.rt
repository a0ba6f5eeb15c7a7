// The line that the replay program prints: decimal numbers with single spaces, and a newline.
#![tactic(auto)]

mod text; // text.rt: numbers as a line of text

ghost use Rattle.std.specs.Prelude.{◌≡◌, Some};
ghost use Rattle.tfs_spec.specs.Replays.{line_bytes, program_numbers};
ghost use Rattle.replay_line.specs.File.{file_of, replayable, image_after};
ghost use Rattle.replay_line.specs.Summary.{numbers};

use crate::text::{Line, line_of_one, line_of_three, line_of_two};
use std::fmt;
use tfs::ReplayError;

// The longest file that the program takes.
const MOST: usize = 65536;

// What the program tells: what the replay comes to, or that there was other trouble.
#[derive(Clone, Copy)]
pub enum Summary {
    Replayed(usize),
    Stopped(ReplayError),
    Trouble,
}

impl Summary {
    // The line of its numbers, whichever they are.
    pub fn text(self) -> Line
        ensures { result.bytes ≡ line_bytes (numbers self) }
    {
        match self {
            Summary::Replayed(n) => line_of_two(0, n),
            Summary::Stopped(error) => match error {
                ReplayError::Malformed(k) => line_of_two(1, k),
                ReplayError::Differs(k) => line_of_two(2, k),
                ReplayError::Inconsistent(fault) => line_of_three(3, fault.rule(), fault.place()),
            },
            Summary::Trouble => line_of_one(4),
        }
    }
}

impl fmt::Display for Summary {
    ghost output = { λ summary. Some (line_bytes (numbers summary)) };

    fn fmt<W: fmt::Write>(&self, f: &mut fmt::Formatter<W>) -> fmt::Result {
        f.write_str(self.text().as_str())
    }
}

// Whether two files were read, and are no longer than the program takes.
fn replayable(image: &[u8], image_read: bool, trace: &[u8], trace_read: bool) -> bool
    ensures { result ≡ replayable image.now image_read trace.now trace_read }
{
    image_read && trace_read && image.len() <= MOST && trace.len() <= MOST
}

// What the program tells of an image file and a trace file, each with what was read of it and whether that is all of it. (No clause follows a `&mut` in an Option.)
pub fn line(image: &mut [u8], image_read: bool, trace: &[u8], trace_read: bool) -> Summary
    ensures summary { numbers result ≡ program_numbers (file_of image_read image.old) (file_of trace_read trace.now) }
    ensures image { image.new ≡ image_after image.old image_read trace.now trace_read }
{
    if !replayable(image, image_read, trace, trace_read) {
        return Summary::Trouble;
    }
    match tfs::replay(image, trace) {
        Ok(n) => Summary::Replayed(n),
        Err(error) => Summary::Stopped(error),
    }
}
