// The requests on the timing file. Their arguments stand behind the image: board, maker, the values, and k.
use crate::request::Timing;
use packed::cases::{Case, Outcome, done, one, refused};
use std::io;
use std::io::Read;
use timing::{Error, VALUES};

// The length of the values in bytes.
const LENGTH: usize = 2 * VALUES;

fn values_read<R: Read>(input: &mut R) -> io::Result<[u16; VALUES]> {
    let mut values = [0; VALUES];
    for value in values.iter_mut() {
        *value = (packed::number(input)? % 65536) as u16;
    }
    Ok(values)
}

// Puts the values into a buffer that holds them, two bytes each.
fn put_values(buf: &mut [u8], values: [u16; VALUES]) {
    if buf.len() != LENGTH {
        return;
    }
    for (pair, value) in buf.chunks_exact_mut(2).zip(values) {
        pair.copy_from_slice(&value.to_be_bytes());
    }
}

fn refusal(error: Error) -> Outcome {
    refused(error.number(), error.place())
}

// A boot, whose values go into the buffer, zeros where it is refused.
fn boot(image: &[u8], board: u32, maker: u32, buf: &mut [u8]) -> Outcome {
    let values = timing::boot(image, board, maker);
    put_values(buf, values.unwrap_or([0; VALUES]));
    values.map_or_else(refusal, |_| done())
}

// What a request on the timing file gives, with its arguments read.
pub fn timing<R: Read>(input: &mut R, request: Timing, case: &mut Case<'_>) -> io::Result<Outcome> {
    let board = packed::number(input)?;
    let maker = packed::number(input)?;
    let values = values_read(input)?;
    let k = packed::long_number(input)? as usize;
    let image = &mut *case.image;
    let buf = &mut *case.buf;
    Ok(match request {
        Timing::Store => {
            timing::store(image, board, maker, &values).map_or_else(refusal, |()| done())
        }
        Timing::OpenLid => timing::open_lid(image).map_or_else(refusal, |()| done()),
        Timing::Boot => boot(image, board, maker, buf),
        Timing::StoreBlock => timing::store_block(image, board, maker, &values, k, buf).map_or_else(
            refusal, one,
        ),
        Timing::OpenLidBlock => timing::open_lid_block(image, k, buf).map_or_else(refusal, one),
    })
}
