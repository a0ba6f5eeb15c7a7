// The stores of whole blocks that a store of the file is made of.
ghost use Rattle.std.specs.Prelude.{◌≡◌, [], ◌∷◌, ◌++◌, ◌≤◌, length, drop};
ghost use Rattle.std.proofs.Math.Option.{none};
ghost use Rattle.tfs_spec.specs.Check.{consistent, check};
ghost use Rattle.tfs_spec.specs.Requests.{value, creates, writes};
ghost use Rattle.tfs.specs.Told.{answer_told};
ghost use Rattle.timing_spec.specs.Timing.{TIMING, standing, store_room, fetched};

// The store of the content behind those of the create: content block, inode, map, directory.
const LAST: usize = 5;

// Lays the bytes over the start of the buffer.
fn lay(buf: &mut [u8], bytes: &[u8])
    requires { length bytes.now ≤ length buf.old }
    ensures { buf.new ≡ bytes.now ++ drop (length bytes.now) buf.old }
{
    buf[..bytes.len()].copy_from_slice(bytes);
}

// The last store, where the file is created: the block that the create stores first, with the bytes.
fn last_block(image: &[u8], bytes: &[u8], buf: &mut [u8]) -> Result<u32, tfs::Error>
    requires passed { check 512 image.now ≡ consistent }
    requires absent { standing 512 image.now ≡ none }
    requires whole { length bytes.now ≡ 64 }
    ensures answer { answer_told value result ≡ (fetched 512 image.now (store_room 512 image.now none) (creates TIMING 64 ∷ writes TIMING 0 bytes.now ∷ []) 5 buf.old).answer }
    ensures buffer { buf.new ≡ (fetched 512 image.now (store_room 512 image.now none) (creates TIMING 64 ∷ writes TIMING 0 bytes.now ∷ []) 5 buf.old).buffer }
{
    let block = tfs::create_store(image, b"TIMING", 64, 1, buf)?;
    lay(buf, bytes);
    Ok(block)
}

// The k-th store, where the file is created: 11, 12, 32.
pub fn new_block(image: &[u8], bytes: &[u8], k: usize, buf: &mut [u8]) -> Result<u32, tfs::Error>
    requires passed { check 512 image.now ≡ consistent }
    requires absent { standing 512 image.now ≡ none }
    requires whole { length bytes.now ≡ 64 }
    ensures answer { answer_told value result ≡ (fetched 512 image.now (store_room 512 image.now none) (creates TIMING 64 ∷ writes TIMING 0 bytes.now ∷ []) k buf.old).answer }
    ensures buffer { buf.new ≡ (fetched 512 image.now (store_room 512 image.now none) (creates TIMING 64 ∷ writes TIMING 0 bytes.now ∷ []) k buf.old).buffer }
{
    if k == LAST {
        return last_block(image, bytes, buf);
    }
    tfs::create_store(image, b"TIMING", 64, k, buf)
}
