// What stands under the file's name, and whether a store may go there.
ghost use Rattle.std.specs.Prelude.{◌≡◌, IfOk};
ghost use Rattle.tfs_spec.specs.Requests.{done};
ghost use Rattle.timing_spec.specs.Timing.{open_answer, store_answer};
ghost use Rattle.timing.specs.Told.{answer_told, Seen, Goes, RefusedBy};

use crate::SIZE;
use crate::error::Error;
use tfs::Refusal;

// A byte more than the file's size: so many are read of a file that is longer.
pub const MORE: usize = 65;

// Where a store goes: into the file that stands, or into one to be created.
#[derive(Clone, Copy)]
pub enum Place {
    Stands,
    Absent,
}

// Reads the file into the buffer, which then begins with its bytes, if it stands with its size: 13, 35. Inlined: its error, handed on through memory,
// would make a refused boot take a fifth more.
#[inline(always)]
pub fn look(image: &[u8], buf: &mut [u8; MORE]) -> Result<(), Error>
    ensures answer { answer_told (λ _. done) result ≡ open_answer 512 image.now }
    ensures seen { IfOk result (λ _. Seen image.now buf.new) }
{
    let moved = tfs::read(image, b"TIMING", 0, buf)?;
    let whole = moved.count as usize == SIZE;
    if !whole {
        return Err(Error::WrongSize);
    }
    Ok(())
}

// Where a store for this board goes: 34, 35.
pub fn room_for(image: &[u8], board: u32) -> Result<Place, Error>
    ensures place { IfOk result (Goes image.now board) }
    ensures refused { RefusedBy (store_answer 512 image.now board) result }
{
    let none = board == 0;
    if none {
        tfs::check(image)?;
        return Err(Error::NoBoard);
    }
    let mut buf = [0u8; MORE];
    match look(image, &mut buf) {
        Ok(()) => Ok(Place::Stands),
        Err(error) => {
            let absent = error == Error::Refused(Refusal::NoSuchName);
            if absent {
                return Ok(Place::Absent);
            }
            Err(error)
        }
    }
}
