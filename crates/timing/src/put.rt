// The file's bytes put into the volume.
ghost use Rattle.std.specs.Prelude.{◌≡◌, [], ◌∷◌};
ghost use Rattle.std.proofs.Math.Option.{none};
ghost use Rattle.tfs_spec.specs.Requests.{done, write, creates, writes};
ghost use Rattle.tfs.specs.Told.{answer_told};
ghost use Rattle.timing_spec.specs.Timing.{TIMING, store_room, made};

// Writes bytes over the start of the file, all in one write, which is granted where the file stands.
pub fn put(image: &mut [u8], bytes: &[u8])
    ensures { image.new ≡ (write 512 image.old TIMING 0 bytes.now).image }
{
    let _ = tfs::write(image, b"TIMING", 0, bytes);
}

// Creates the file and puts the bytes into it: 11, 12.
pub fn make(image: &mut [u8], bytes: &[u8]) -> Result<(), tfs::Error>
    ensures answer { answer_told (λ _. done) result ≡ store_room 512 image.old none }
    ensures image { image.new ≡ (made 512 image.old (store_room 512 image.old none) (creates TIMING 64 ∷ writes TIMING 0 bytes.now ∷ [])).image }
{
    tfs::create(image, b"TIMING", 64)?;
    put(image, bytes);
    Ok(())
}
