// The TFS requests for C. The header is tfs.h; a slice passes as a pointer and then a length.
#![tactic(auto)]

ghost use Rattle.std.specs.Prelude.{◌≡◌, length};
ghost use Rattle.lists.specs.Lists.{zeros, pad_to};
ghost use Rattle.tfs_spec.specs.Requests as rules;
ghost use Rattle.tfs_transfer.specs.Told.{transferred_told};
ghost use Rattle.tfs.specs.Told.{error_number, error_place, answer_told, fault_told};
ghost use Rattle.tfs_c.specs.Result.{of_numbers, result_of, empty_slot, file_slot, slot_of};

use tfs::{Entry, Error, Fault, Transferred};

// The refusal's number, 0 for granted; its place; the value granted; of a transfer the number of content blocks.
#[repr(C)]
#[derive(Clone, Copy)]
pub struct TfsResult {
    pub refusal: u32,
    pub place: u32,
    pub value: u32,
    pub blocks: u32,
}

// What list gives of a slot: the refusal and its place; 1 for a file; its inode number, size and name.
#[repr(C)]
#[derive(Clone, Copy)]
pub struct TfsSlot {
    pub refusal: u32,
    pub place: u32,
    pub used: u32,
    pub inode: u32,
    pub size: u32,
    pub name_length: u32,
    pub name: [u8; 16],
}

fn granted(value: u32, blocks: u32) -> TfsResult
    ensures { result ≡ of_numbers 0 0 value blocks }
{
    TfsResult {
        refusal: 0,
        place: 0,
        value,
        blocks,
    }
}

fn refused(error: Error) -> TfsResult
    ensures { result ≡ of_numbers (error_number error) (error_place error) 0 0 }
{
    TfsResult {
        refusal: error.number(),
        place: error.place(),
        value: 0,
        blocks: 0,
    }
}

#[tactic(auto, unfolding(crate::specs::Result::result_of))]
fn of_answer(answer: Result<u32, Error>) -> TfsResult
    ensures { result ≡ result_of (answer_told rules.value answer) }
{
    match answer {
        Ok(x) => granted(x, 0),
        Err(error) => refused(error),
    }
}

#[tactic(auto, unfolding(crate::specs::Result::result_of))]
fn of_transfer(answer: Result<Transferred, Error>) -> TfsResult
    ensures { result ≡ result_of (answer_told transferred_told answer) }
{
    match answer {
        Ok(moved) => granted(moved.count, moved.blocks),
        Err(error) => refused(error),
    }
}

#[tactic(auto, unfolding(crate::specs::Result::result_of))]
fn of_done(answer: Result<(), Error>) -> TfsResult
    ensures { result ≡ result_of (answer_told (λ _. rules.done) answer) }
{
    match answer {
        Ok(()) => granted(0, 0),
        Err(error) => refused(error),
    }
}

// The first broken rule of the volume, at its lowest place.
#[unsafe(no_mangle)]
#[tactic(auto, unfolding(tfs_spec::specs::Requests::check_answer))]
pub extern "C" fn tfs_check(image: &[u8]) -> TfsResult
    ensures { result ≡ result_of (rules.check_answer 512 image.now) }
{
    of_done(tfs::check(image).map_err(Error::Inconsistent))
}

// An empty volume with this label, whatever the image held.
#[unsafe(no_mangle)]
pub extern "C" fn tfs_format(image: &mut [u8], label: &[u8]) -> TfsResult
    ensures { (result ≡ result_of (rules.format 512 image.old label.now).answer) × (image.new ≡ (rules.format 512 image.old label.now).image) }
{
    of_done(tfs::format(image, label))
}

// A file of this name and size, all zeros; the value is its inode number.
#[unsafe(no_mangle)]
pub extern "C" fn tfs_create(image: &mut [u8], name: &[u8], size: u32) -> TfsResult
    ensures { (result ≡ result_of (rules.create 512 image.old name.now size).answer) × (image.new ≡ (rules.create 512 image.old name.now size).image) }
{
    of_answer(tfs::create(image, name, size))
}

// Removes the file of this name.
#[unsafe(no_mangle)]
pub extern "C" fn tfs_remove(image: &mut [u8], name: &[u8]) -> TfsResult
    ensures { (result ≡ result_of (rules.remove 512 image.old name.now).answer) × (image.new ≡ (rules.remove 512 image.old name.now).image) }
{
    of_done(tfs::remove(image, name))
}

// Reads from the offset on of the file of this name; the value is the count, and `blocks` in how many content blocks these bytes lie; the rest of the buffer stays.
#[unsafe(no_mangle)]
pub extern "C" fn tfs_read(image: &[u8], name: &[u8], offset: u32, buf: &mut [u8]) -> TfsResult
    ensures { (result ≡ result_of (rules.read 512 image.now name.now offset buf.old).answer) × (buf.new ≡ (rules.read 512 image.now name.now offset buf.old).buffer) }
{
    of_transfer(tfs::read(image, name, offset, buf))
}

// Writes into the file of this name from the offset on, as far as it reaches; value and `blocks` as of a read.
#[unsafe(no_mangle)]
pub extern "C" fn tfs_write(image: &mut [u8], name: &[u8], offset: u32, buf: &[u8]) -> TfsResult
    ensures { (result ≡ result_of (rules.write 512 image.old name.now offset buf.now).answer) × (image.new ≡ (rules.write 512 image.old name.now offset buf.now).image) }
{
    of_transfer(tfs::write(image, name, offset, buf))
}

// The value is 512 times the free blocks.
#[unsafe(no_mangle)]
pub extern "C" fn tfs_free_bytes(image: &[u8]) -> TfsResult
    ensures { result ≡ result_of (rules.free_answer 512 image.now) }
{
    of_answer(tfs::free_bytes(image).map_err(Error::Inconsistent))
}

// ---- power taken in the middle

// The k-th store of tfs_create: the value is the number of its block, whose bytes stand at the start of the buffer then.
#[unsafe(no_mangle)]
pub extern "C" fn tfs_create_store(
    image: &[u8],
    name: &[u8],
    size: u32,
    k: usize,
    buf: &mut [u8],
) -> TfsResult
    ensures { (result ≡ result_of (rules.fetch 512 image.now (rules.creates name.now size) k buf.old).answer) × (buf.new ≡ (rules.fetch 512 image.now (rules.creates name.now size) k buf.old).buffer) }
{
    of_answer(tfs::create_store(image, name, size, k, buf))
}

// The k-th store of tfs_remove.
#[unsafe(no_mangle)]
pub extern "C" fn tfs_remove_store(image: &[u8], name: &[u8], k: usize, buf: &mut [u8]) -> TfsResult
    ensures { (result ≡ result_of (rules.fetch 512 image.now (rules.removes name.now) k buf.old).answer) × (buf.new ≡ (rules.fetch 512 image.now (rules.removes name.now) k buf.old).buffer) }
{
    of_answer(tfs::remove_store(image, name, k, buf))
}

// The k-th store of tfs_write of these bytes.
#[unsafe(no_mangle)]
pub extern "C" fn tfs_write_store(
    image: &[u8],
    name: &[u8],
    offset: u32,
    bytes: &[u8],
    k: usize,
    buf: &mut [u8],
) -> TfsResult
    ensures { (result ≡ result_of (rules.fetch 512 image.now (rules.writes name.now offset bytes.now) k buf.old).answer) × (buf.new ≡ (rules.fetch 512 image.now (rules.writes name.now offset bytes.now) k buf.old).buffer) }
{
    of_answer(tfs::write_store(image, name, offset, bytes, k, buf))
}

// Clears the set bits of the map that no file claims.
#[unsafe(no_mangle)]
pub extern "C" fn tfs_mend(image: &mut [u8]) -> TfsResult
    ensures { (result ≡ result_of (rules.mend 512 image.old).answer) × (image.new ≡ (rules.mend 512 image.old).image) }
{
    of_done(tfs::mend(image).map_err(Error::Inconsistent))
}

// ---- list

// A slot with no file, or the refusal of list.
fn of_none(refusal: u32, place: u32) -> TfsSlot
    ensures { result ≡ empty_slot refusal place (zeros 16) }
{
    TfsSlot {
        refusal,
        place,
        used: 0,
        inode: 0,
        size: 0,
        name_length: 0,
        name: [0; 16],
    }
}

// A slot with a file.
fn of_file(entry: &Entry) -> TfsSlot
    ensures { result ≡ file_slot (length entry.now.name) entry.now.inode entry.now.size (pad_to 16 entry.now.name) }
{
    let name = &entry.name;
    TfsSlot {
        refusal: 0,
        place: 0,
        used: 1,
        inode: entry.inode,
        size: entry.size,
        name_length: name.as_bytes().len() as u32,
        name: name.padded(),
    }
}

// What stands in a slot.
#[unsafe(no_mangle)]
#[tactic(auto, unfolding(crate::specs::Result::slot_with))]
pub extern "C" fn tfs_list(image: &[u8], slot: u32) -> TfsSlot
    ensures { result ≡ slot_of (rules.list_answer 512 image.now slot) }
{
    match tfs::list(image, slot) {
        Ok(Some(entry)) => of_file(&entry),
        Ok(None) => of_none(0, 0),
        Err(error) => of_none(error.number(), error.place()),
    }
}
