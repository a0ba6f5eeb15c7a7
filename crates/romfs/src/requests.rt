// The requests. Each of them but check checks the image first.
ghost use Rattle.std.specs.Prelude.{◌≡◌, length};
ghost use Rattle.romfs_spec.specs.Check as rules;
ghost use Rattle.romfs_spec.specs.Requests as requests;
ghost use Rattle.romfs_refusal.specs.Told.{verdict_told};
ghost use Rattle.romfs.specs.Told.{answer_told, as_it_is, entry_of, length_of, part_start, IsUnfit, PartFits, LiesAt};

use crate::error::Error;
use crate::parts::{Header, Part};
use crate::steps::{content_step, entry_step, find_step};
use romfs_refusal::Fault;

// Checks an image: rules 21 to 29.
pub fn check(image: &[u8]) -> Result<(), Fault>
    ensures { verdict_told result ≡ rules.check image.now }
{
    romfs_check::check(image)?;
    Ok(())
}

// The header of a name in the list of a directory; 0 is the root list.
#[tactic(auto, unfolding(romfs_spec::specs::Requests::find))]
pub fn find(image: &[u8], dir: u32, name: &[u8]) -> Result<u32, Error>
    ensures { answer_told as_it_is result ≡ requests.find image.now dir name.now }
{
    let checked = romfs_check::check(image)?;
    Ok(find_step(checked, dir as usize, name)?)
}

// The header at an offset.
#[tactic(auto, unfolding(romfs_spec::specs::Requests::entry))]
pub fn entry(image: &[u8], at: u32) -> Result<Header, Error>
    ensures answer { answer_told entry_of result ≡ requests.entry image.now at }
    ensures refusal { IsUnfit result }
{
    let checked = romfs_check::check(image)?;
    Ok(entry_step(checked, at as usize)?)
}

// The length of the content at a header.
pub fn content_length(image: &[u8], at: u32) -> Result<u32, Error>
    ensures answer { answer_told as_it_is result ≡ requests.content_length image.now at }
    ensures refusal { IsUnfit result }
{
    Ok(content_part(image, at)?.length)
}

// The content as that part of the image, not copied; an empty part where it is refused.
pub fn content<'a>(image: &'a [u8], at: u32) -> &'a [u8]
    ensures content { result.now ≡ requests.content image.now at }
    ensures place { LiesAt result image.entry (requests.content_start image.now at) }
{
    match content_part(image, at) {
        Ok(part) => {
            let start = part.offset as usize;
            &image[start..start + part.length as usize]
        }
        Err(_) => &image[0..0],
    }
}

// The same as numbers, for callers that take no part of a slice.
#[tactic(auto, unfolding(romfs_spec::specs::Requests::content_length, romfs_spec::specs::Requests::content_start))]
pub fn content_part(image: &[u8], at: u32) -> Result<Part, Error>
    ensures answer { answer_told length_of result ≡ requests.content_length image.now at }
    ensures start { part_start result ≡ requests.content_start image.now at }
    ensures within { PartFits (length image.now) result }
    ensures refusal { IsUnfit result }
{
    let checked = romfs_check::check(image)?;
    Ok(content_step(checked, at as usize)?)
}
