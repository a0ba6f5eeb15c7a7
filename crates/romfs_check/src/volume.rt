// Rules 21 to 25.
ghost use Rattle.std.specs.Prelude.{◌≡◌, not, ◌||◌, ◌%◌, ◌≤◌, ltb, eqb, length, IfOk};
ghost use Rattle.romfs_spec.specs.Check.{bad_magic, volume};
ghost use Rattle.romfs_refusal.specs.Told.{verdict_told};

use romfs_headers::Image;
use romfs_headers::words::{full_size, name_is, sum_words};
use romfs_refusal::Fault;

#[tactic(auto, unfolding(romfs_spec::specs::Check::bad_magic))]
fn bad_magic(image: &[u8]) -> bool
    requires { 32 ≤ length image.now }
    ensures { result ≡ bad_magic image.now }
{
    !name_is(image, 0, 8, b"-rom1fs-")
}

fn bad_full(full: usize, len: usize) -> bool
    ensures { result ≡ (ltb full 32 || (ltb len full || not (eqb (full % 16) 0))) }
{
    full < 32 || len < full || full % 16 != 0
}

// The image with its full size.
#[tactic(auto, unfolding(romfs_spec::specs::Check::volume, romfs_spec::specs::Check::too_short, romfs_spec::specs::Check::bad_full_size, romfs_spec::specs::Check::bad_volume_sum, romfs_spec::specs::Check::bad_volume_name, romfs_spec::specs::Layout::name_ends))]
pub fn check_volume<'a>(image: &'a [u8]) -> Result<Image<'a>, Fault>
    ensures verdict { verdict_told result ≡ volume image.now }
    ensures image { IfOk result (λ checked. checked.bytes.now ≡ image.now) }
{
    if image.len() < 32 {
        return Err(Fault::ImageTooShort);
    }
    if bad_magic(image) {
        return Err(Fault::BadMagic);
    }
    let full = full_size(image);
    if bad_full(full, image.len()) {
        return Err(Fault::BadFullSize);
    }
    // The sum covers at most 512 bytes.
    if sum_words(image, 0, full.min(512) / 4) != 0 {
        return Err(Fault::BadVolumeSum);
    }
    let volume = Image { bytes: image, full };
    if full <= 16 + volume.name_length(16) {
        return Err(Fault::BadVolumeName);
    }
    Ok(volume)
}
