// TFS: files in an image that the caller holds. Every request but format and mend runs the check first, and gives its fault where the volume is not consistent.
#![tactic(auto)]

mod entry; // entry.rt: what list tells of a file
mod error; // error.rt: why a request is refused, and what stops a replay
mod look; // look.rt: list on a consistent volume

ghost use Rattle.std.specs.Prelude.{◌≡◌};
ghost use Rattle.tfs_spec.specs.Check.{check};
ghost use Rattle.tfs_spec.specs.Requests.{done, value, format, create, remove, read, write, list_answer, free_answer, creates, removes, writes, fetch, mend};
ghost use Rattle.tfs_spec.specs.Replays.{replay};
ghost use Rattle.tfs_refusal.specs.Told.{verdict_told};
ghost use Rattle.tfs_transfer.specs.Told.{transferred_told};
ghost use Rattle.tfs.specs.Told.{answer_told, fault_told, entry_told, replay_told};

pub use crate::entry::{Entry, Name};
pub use crate::error::{Error, ReplayError};
use crate::look::list_step;
use tfs_change::{create_step, remove_step};
use tfs_dir::names::label_allowed;
use tfs_fetch::create::fetch_create;
use tfs_fetch::remove::fetch_remove;
use tfs_fetch::write::fetch_write;
use tfs_layout::LOW_END;
pub use tfs_refusal::{Fault, Refusal};
use tfs_replay::replay_records;
use tfs_steps::format::format_blocks;
use tfs_steps::free::free_step;
pub use tfs_transfer::Transferred;
use tfs_transfer::{read_step, write_step};

// An empty volume with this label, whatever the image held.
#[tactic(auto, using(std::proofs::lemmas::Grind::common_steps, crate::specs::Format::label_short), unfolding(tfs_spec::specs::Requests::format, tfs_spec::specs::Check::too_short))]
pub fn format(image: &mut [u8], label: &[u8]) -> Result<(), Error>
    ensures answer { answer_told (λ _. done) result ≡ (format 512 image.old label.now).answer }
    ensures image { image.new ≡ (format 512 image.old label.now).image }
{
    if image.len() < LOW_END {
        return Err(Fault::ImageTooShort.into());
    }
    if !label_allowed(label) {
        return Err(Refusal::NameNotAllowed.into());
    }
    format_blocks(image, label);
    Ok(())
}

// The first broken rule of the volume, at its lowest place.
pub fn check(image: &[u8]) -> Result<(), Fault>
    ensures { verdict_told result ≡ check 512 image.now }
{
    tfs_check::check(image)
}

// A file of this name and size, all zeros; granted with its inode number.
#[tactic(auto, unfolding(tfs_spec::specs::Requests::create))]
pub fn create(image: &mut [u8], name: &[u8], size: u32) -> Result<u32, Error>
    ensures answer { answer_told value result ≡ (create 512 image.old name.now size).answer }
    ensures image { image.new ≡ (create 512 image.old name.now size).image }
{
    check(image)?;
    Ok(create_step(image, name, size)?)
}

// Removes the file of this name: its blocks are free, its slot is zero.
#[tactic(auto, unfolding(tfs_spec::specs::Requests::remove))]
pub fn remove(image: &mut [u8], name: &[u8]) -> Result<(), Error>
    ensures answer { answer_told (λ _. done) result ≡ (remove 512 image.old name.now).answer }
    ensures image { image.new ≡ (remove 512 image.old name.now).image }
{
    check(image)?;
    Ok(remove_step(image, name)?)
}

// Reads from the offset on of the file of this name into the buffer, granted with the count and the number of content blocks that these bytes lie in; the rest of the buffer stays.
#[tactic(auto, unfolding(tfs_spec::specs::Requests::read))]
pub fn read(image: &[u8], name: &[u8], offset: u32, buf: &mut [u8]) -> Result<Transferred, Error>
    ensures answer { answer_told transferred_told result ≡ (read 512 image.now name.now offset buf.old).answer }
    ensures buffer { buf.new ≡ (read 512 image.now name.now offset buf.old).buffer }
{
    check(image)?;
    Ok(read_step(image, name, offset, buf)?)
}

// Writes the buffer into the file of this name from the offset on, as far as the file reaches; granted as read is.
#[tactic(auto, unfolding(tfs_spec::specs::Requests::write))]
pub fn write(image: &mut [u8], name: &[u8], offset: u32, buf: &[u8]) -> Result<Transferred, Error>
    ensures answer { answer_told transferred_told result ≡ (write 512 image.old name.now offset buf.now).answer }
    ensures image { image.new ≡ (write 512 image.old name.now offset buf.now).image }
{
    check(image)?;
    Ok(write_step(image, name, offset, buf)?)
}

// What stands in a slot: nothing, or a file.
#[tactic(auto, unfolding(tfs_spec::specs::Requests::list_answer))]
pub fn list(image: &[u8], slot: u32) -> Result<Option<Entry>, Error>
    ensures { answer_told entry_told result ≡ list_answer 512 image.now slot }
{
    check(image)?;
    Ok(list_step(image, slot)?)
}

// The bytes of all free blocks.
#[tactic(auto, unfolding(tfs_spec::specs::Requests::free_answer))]
pub fn free_bytes(image: &[u8]) -> Result<u32, Fault>
    ensures { fault_told value result ≡ free_answer 512 image.now }
{
    check(image)?;
    Ok(free_step(image))
}

// Replays a trace: the check once, then its requests one after another, granted with the count of its records. A request whose answer differs has been run, and nothing is undone.
#[tactic(auto, using(std::proofs::lemmas::Grind::common_steps, crate::specs::Told::told_stopped), unfolding(tfs_spec::specs::Replays::replay))]
pub fn replay(image: &mut [u8], trace: &[u8]) -> Result<usize, ReplayError>
    ensures result { replay_told result ≡ (replay 512 image.old trace.now).result }
    ensures image { image.new ≡ (replay 512 image.old trace.now).image }
{
    check(image)?;
    Ok(replay_records(image, trace)?)
}

// ---- power taken in the middle: a create, a remove and a write as a series of stores of whole blocks, counted from 1

// The k-th store of a create: the content blocks in the file's order, inode, map, directory. Granted with the number of its block, whose bytes stand at the start of the buffer then; the rest of the buffer stays.
#[tactic(auto, unfolding(tfs_spec::specs::Requests::fetch, tfs_spec::specs::Requests::perform, tfs_spec::specs::Requests::create))]
pub fn create_store(
    image: &[u8],
    name: &[u8],
    size: u32,
    k: usize,
    buf: &mut [u8],
) -> Result<u32, Error>
    ensures answer { answer_told value result ≡ (fetch 512 image.now (creates name.now size) k buf.old).answer }
    ensures buffer { buf.new ≡ (fetch 512 image.now (creates name.now size) k buf.old).buffer }
{
    check(image)?;
    Ok(fetch_create(image, name, size, k, buf)?)
}

// The k-th store of a remove: directory, map. Granted as that of a create is.
#[tactic(auto, unfolding(tfs_spec::specs::Requests::fetch, tfs_spec::specs::Requests::perform, tfs_spec::specs::Requests::remove))]
pub fn remove_store(image: &[u8], name: &[u8], k: usize, buf: &mut [u8]) -> Result<u32, Error>
    ensures answer { answer_told value result ≡ (fetch 512 image.now (removes name.now) k buf.old).answer }
    ensures buffer { buf.new ≡ (fetch 512 image.now (removes name.now) k buf.old).buffer }
{
    check(image)?;
    Ok(fetch_remove(image, name, k, buf)?)
}

// The k-th store of a write of the bytes: each content block in which they lie, in the file's order. Granted as that of a create is.
#[tactic(auto, unfolding(tfs_spec::specs::Requests::fetch, tfs_spec::specs::Requests::perform, tfs_spec::specs::Requests::write))]
pub fn write_store(
    image: &[u8],
    name: &[u8],
    offset: u32,
    bytes: &[u8],
    k: usize,
    buf: &mut [u8],
) -> Result<u32, Error>
    ensures answer { answer_told value result ≡ (fetch 512 image.now (writes name.now offset bytes.now) k buf.old).answer }
    ensures buffer { buf.new ≡ (fetch 512 image.now (writes name.now offset bytes.now) k buf.old).buffer }
{
    check(image)?;
    Ok(fetch_write(image, name, offset, bytes, k, buf)?)
}

// Clears the set bits of the map that no file claims, or gives the first other fault and changes nothing.
#[tactic(auto, unfolding(tfs_spec::specs::Requests::mend))]
pub fn mend(image: &mut [u8]) -> Result<(), Fault>
    ensures answer { fault_told (λ _. done) result ≡ (mend 512 image.old).answer }
    ensures image { image.new ≡ (mend 512 image.old).image }
{
    tfs_mend::mend(image)?;
    Ok(())
}
