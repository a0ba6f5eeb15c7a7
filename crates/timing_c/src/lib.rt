// The requests on the pump's timing file for C. The header is timing.h; a slice passes as a pointer and then a length, 28 values as a pointer.
#![tactic(auto)]

ghost use Rattle.std.specs.Prelude.{◌≡◌};
ghost use Rattle.tfs_spec.specs.Requests.{done, value};
ghost use Rattle.timing.specs.Told.{timing, error_number, error_place, answer_told, booted_told};
ghost use Rattle.timing_spec.specs.Timing as rules;
ghost use Rattle.timing_c.specs.Result.{of_numbers, result_of, booted_of};

use timing::{Error, VALUES};

// The refusal's number, 0 for granted; its place; the number of a block.
#[repr(C)]
#[derive(Clone, Copy)]
pub struct TimingResult {
    pub refusal: u32,
    pub place: u32,
    pub value: u32,
}

// What a boot gives: the refusal and its place; the values, zeros where it is refused.
#[repr(C)]
#[derive(Clone, Copy)]
pub struct TimingBooted {
    pub refusal: u32,
    pub place: u32,
    pub values: [u16; VALUES],
}

fn granted(value: u32) -> TimingResult
    ensures { result ≡ of_numbers 0 0 value }
{
    TimingResult {
        refusal: 0,
        place: 0,
        value,
    }
}

fn refused(error: Error) -> TimingResult
    ensures { result ≡ of_numbers (error_number error) (error_place error) 0 }
{
    TimingResult {
        refusal: error.number(),
        place: error.place(),
        value: 0,
    }
}

#[tactic(auto, unfolding(crate::specs::Result::result_of))]
fn of_done(answer: Result<(), Error>) -> TimingResult
    ensures { result ≡ result_of (answer_told (λ _. done) answer) }
{
    match answer {
        Ok(()) => granted(0),
        Err(error) => refused(error),
    }
}

#[tactic(auto, unfolding(crate::specs::Result::result_of))]
fn of_answer(answer: Result<u32, Error>) -> TimingResult
    ensures { result ≡ result_of (answer_told value answer) }
{
    match answer {
        Ok(block) => granted(block),
        Err(error) => refused(error),
    }
}

// A refused boot. Not inlined: beside a granted one, whose values lie in registers, each of its zeros would be made in one too.
#[inline(never)]
#[tactic(auto, unfolding(crate::specs::Result::result_of))]
fn refused_boot(refusal: u32, place: u32) -> TimingBooted
    ensures { result ≡ booted_of (rules.not_booted refusal place) }
{
    TimingBooted {
        refusal,
        place,
        values: [0; VALUES],
    }
}

#[tactic(auto, unfolding(crate::specs::Result::result_of))]
fn of_boot(answer: Result<[u16; VALUES], Error>) -> TimingBooted
    ensures { result ≡ booted_of (booted_told answer) }
{
    match answer {
        Ok(values) => TimingBooted {
            refusal: 0,
            place: 0,
            values,
        },
        Err(error) => refused_boot(error.number(), error.place()),
    }
}

// Stores the numbers and the values.
#[unsafe(no_mangle)]
pub extern "C" fn timing_store(
    image: &mut [u8],
    board: u32,
    maker: u32,
    values: &[u16; VALUES],
) -> TimingResult
    ensures { (result ≡ result_of (rules.store 512 image.old (timing board maker values.now)).answer) × (image.new ≡ (rules.store 512 image.old (timing board maker values.now)).image) }
{
    of_done(timing::store(image, board, maker, values))
}

// Notes that the lid was opened.
#[unsafe(no_mangle)]
pub extern "C" fn timing_open_lid(image: &mut [u8]) -> TimingResult
    ensures { (result ≡ result_of (rules.open_lid 512 image.old).answer) × (image.new ≡ (rules.open_lid 512 image.old).image) }
{
    of_done(timing::open_lid(image))
}

// The values for this board and this maker.
#[unsafe(no_mangle)]
pub extern "C" fn timing_boot(image: &[u8], board: u32, maker: u32) -> TimingBooted
    ensures { result ≡ booted_of (rules.boot 512 image.now board maker) }
{
    of_boot(timing::boot(image, board, maker))
}

// The k-th store of a store; the value is the number of its block.
#[unsafe(no_mangle)]
pub extern "C" fn timing_store_block(
    image: &[u8],
    board: u32,
    maker: u32,
    values: &[u16; VALUES],
    k: usize,
    buf: &mut [u8],
) -> TimingResult
    ensures { (result ≡ result_of (rules.store_block 512 image.now (timing board maker values.now) k buf.old).answer) × (buf.new ≡ (rules.store_block 512 image.now (timing board maker values.now) k buf.old).buffer) }
{
    of_answer(timing::store_block(image, board, maker, values, k, buf))
}

// The k-th store of an opening.
#[unsafe(no_mangle)]
pub extern "C" fn timing_open_lid_block(image: &[u8], k: usize, buf: &mut [u8]) -> TimingResult
    ensures { (result ≡ result_of (rules.open_lid_block 512 image.now k buf.old).answer) × (buf.new ≡ (rules.open_lid_block 512 image.now k buf.old).buffer) }
{
    of_answer(timing::open_lid_block(image, k, buf))
}
