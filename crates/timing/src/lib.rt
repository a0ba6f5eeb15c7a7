// The pump's timing file: the values that the memory was trained to, with the board and the memory maker that they were trained on. It sees the volume by the requests of TFS only, and every request runs the check first.
#![tactic(auto)]

mod blocks; // blocks.rt: a store that creates the file, as stores of whole blocks
mod bytes; // bytes.rt: the file's bytes made and read
mod error; // error.rt: why a request is refused
mod look; // look.rt: what stands under the file's name
mod put; // put.rt: its bytes put into the volume

ghost use Rattle.std.specs.Prelude.{◌≡◌, length};
ghost use Rattle.std.proofs.Math.Option.{some};
ghost use Rattle.tfs_spec.specs.Requests.{done, value};
ghost use Rattle.timing_spec.specs.Timing.{store, store_block, open_lid, open_lid_block, boot_on, boot};
ghost use Rattle.timing.specs.Told.{timing, answer_told, booted_told};

use crate::blocks::new_block;
use crate::bytes::{MAKER, bytes_of, number_at, values_of};
pub use crate::error::Error;
use crate::look::{MORE, Place, look, room_for};
use crate::put::{make, put};
pub use tfs::{Fault, Refusal};

// How many values the file has.
pub const VALUES: usize = 28;

// The file's size.
pub const SIZE: usize = 64;

// What boot gives of the bytes of the file: 34, 36, 37.
fn judge(bytes: &[u8], board: u32, maker: u32) -> Result<[u16; VALUES], Error>
    requires { length bytes.now ≡ 64 }
    ensures { booted_told result ≡ boot_on (some bytes.now) board maker }
{
    let stored = number_at(bytes, 0);
    if stored == 0 {
        return Err(Error::NoBoard);
    }
    if stored != board {
        return Err(Error::OtherBoard);
    }
    if number_at(bytes, MAKER) != maker {
        return Err(Error::OtherMaker);
    }
    Ok(values_of(bytes))
}

// The values, if the file stands, has its size, its board number is not 0, and both numbers are these: 13, 35, 34, 36, 37.
pub fn boot(image: &[u8], board: u32, maker: u32) -> Result<[u16; VALUES], Error>
    ensures { booted_told result ≡ boot 512 image.now board maker }
{
    let mut buf = [0u8; MORE];
    look(image, &mut buf)?;
    judge(&buf[0..SIZE], board, maker)
}

// Stores the numbers and the values, and creates the file if it is absent: 34, 35, 11, 12.
pub fn store(image: &mut [u8], board: u32, maker: u32, values: &[u16; VALUES]) -> Result<(), Error>
    ensures answer { answer_told (λ _. done) result ≡ (store 512 image.old (timing board maker values.now)).answer }
    ensures image { image.new ≡ (store 512 image.old (timing board maker values.now)).image }
{
    let bytes = bytes_of(board, maker, values);
    match room_for(image, board)? {
        Place::Stands => put(image, &bytes),
        Place::Absent => make(image, &bytes)?,
    }
    Ok(())
}

// Notes that the lid was opened: the board number becomes 0, the other bytes stay: 13, 35.
pub fn open_lid(image: &mut [u8]) -> Result<(), Error>
    ensures answer { answer_told (λ _. done) result ≡ (open_lid 512 image.old).answer }
    ensures image { image.new ≡ (open_lid 512 image.old).image }
{
    let mut buf = [0u8; MORE];
    look(image, &mut buf)?;
    put(image, &[0, 0, 0, 0]);
    Ok(())
}

// ---- power taken in the middle: a store and an opening as series of stores of whole blocks, counted from 1

// The k-th store of a store: those of the create, if the file is absent, and then that of its content. Granted with the number of its block, whose bytes stand at the start of the buffer then; the rest of the buffer stays. Refused as store is, then 32.
pub fn store_block(
    image: &[u8],
    board: u32,
    maker: u32,
    values: &[u16; VALUES],
    k: usize,
    buf: &mut [u8],
) -> Result<u32, Error>
    ensures answer { answer_told value result ≡ (store_block 512 image.now (timing board maker values.now) k buf.old).answer }
    ensures buffer { buf.new ≡ (store_block 512 image.now (timing board maker values.now) k buf.old).buffer }
{
    let bytes = bytes_of(board, maker, values);
    match room_for(image, board)? {
        Place::Stands => Ok(tfs::write_store(image, b"TIMING", 0, &bytes, k, buf)?),
        Place::Absent => Ok(new_block(image, &bytes, k, buf)?),
    }
}

// The k-th store of an opening, which has one. Granted as that of a store is; refused as an opening is, then 32.
pub fn open_lid_block(image: &[u8], k: usize, buf: &mut [u8]) -> Result<u32, Error>
    ensures answer { answer_told value result ≡ (open_lid_block 512 image.now k buf.old).answer }
    ensures buffer { buf.new ≡ (open_lid_block 512 image.now k buf.old).buffer }
{
    let mut old = [0u8; MORE];
    look(image, &mut old)?;
    Ok(tfs::write_store(image, b"TIMING", 0, &[0, 0, 0, 0], k, buf)?)
}
