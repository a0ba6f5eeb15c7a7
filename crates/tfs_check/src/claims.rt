// The claims of all files, in a map of their own, and rule 5 on the way.
ghost use Rattle.std.specs.Prelude.{◌≡◌, ◌≤◌, ◌<◌, OnOk, IfOk};
ghost use Rattle.lists.specs.Lists.{least};
ghost use Rattle.tfs_spec.specs.Layout.{block, need, inode_size, inode_number, set_bits, view};
ghost use Rattle.tfs_spec.specs.Check.{found, consistent, file_claims, claims, bad_inode};
ghost use Rattle.tfs_refusal.specs.Told.{verdict_told};
ghost use Rattle.tfs_inode.specs.Wrong.{inode_wrong};
ghost use Rattle.tfs_inode.specs.Claims.{claim_list};
ghost use Rattle.tfs_check.specs.Doubled.{lower_of, doubled, numbers_to};
ghost use Rattle.tfs_check.specs.Taken.{row_byte, held};
ghost use Rattle.tfs_check.specs.Row.{Fills, Turned};
ghost use Rattle.tfs_check.specs.Found.{listed_wrong, Claimed};

use crate::files::Volume;
use spans::bits::with_one;
use tfs_dir::volume::inode_at;
use tfs_inode::read::{Inode, blocks_needed};
use tfs_layout::{BLOCK, MAX_SIZE, SLOTS};
use tfs_map::bit::{map_bit, set_bit};
use tfs_refusal::Fault;

// The blocks of a row: those whose bits one byte of a map holds.
const ROW: usize = 8;

// The lower of b and low where b is claimed twice, else low.
fn lower(twice: bool, b: usize, low: usize) -> usize
    ensures { result ≡ lower_of twice b low }
{
    if twice && b < low { b } else { low }
}

// The index of the byte of a row.
#[tactic(auto, unfolding(crate::specs::Taken::row_byte))]
fn row_byte(row: usize) -> usize
    requires { row < 512 }
    ensures { (result ≡ row_byte row) × (result < 512) }
{
    4 * (row / 4) + (3 - row % 4)
}

// The byte of a row, taken out of a map to be changed. So the bits of neighbouring blocks are set in one byte at hand, and not each in memory.
#[derive(Clone, Copy)]
struct Taken {
    row: usize,
    byte: u8,
}

impl Taken {
    // Takes the byte of a row.
    #[tactic(auto, unfolding(crate::specs::Taken::held))]
    fn of(map: &[u8; BLOCK], row: usize) -> Taken
        requires { row < 512 }
        ensures row { result.row ≡ row }
        ensures held { held map.now result.row result.byte ≡ map.now }
    {
        Taken {
            row,
            byte: map[row_byte(row)],
        }
    }

    // Puts the byte back.
    #[tactic(auto, unfolding(crate::specs::Taken::held))]
    fn put(self, map: &mut [u8; BLOCK])
        requires { self.row < 512 }
        ensures { map.new ≡ held map.old self.row self.byte }
    {
        map[row_byte(self.row)] = self.byte;
    }

    // Puts the byte back and takes that of another row, unless it is this one.
    fn moved(self, map: &mut [u8; BLOCK], row: usize) -> Taken
        requires taken { self.row < 512 }
        requires row { row < 512 }
        ensures row { result.row ≡ row }
        ensures held { held map.new result.row result.byte ≡ held map.old self.row self.byte }
    {
        if self.row == row {
            return self;
        }
        self.put(map);
        Taken::of(map, row)
    }
}

// What is left to claim of an inode: from number k on; the byte of the last row, and the lowest block claimed twice.
#[derive(Clone, Copy)]
struct Turn {
    k: usize,
    byte: u8,
    least: usize,
}

// The first `count` numbers of an inode, in a volume of n blocks.
#[derive(Clone, Copy)]
struct Numbers<'a> {
    ino: Inode<'a>,
    count: usize,
    n: usize,
    ghost counted: { count ≡ need 512 (inode_size ino.bytes.now) },
    ghost few: { count ≤ 127 },
    ghost low: { 3 ≤ n },
    ghost high: { n ≤ 4096 },
}

impl Numbers<'_> {
    // Block number k.
    fn at(&self, k: usize) -> usize
        requires { k < 127 }
        ensures { result ≡ inode_number self.now.ino.bytes.now k }
    {
        self.ino.number(k) as usize
    }

    // Whether numbers k to k + 7 are found to be the eight blocks of a row, from b on.
    fn fills_row(&self, k: usize, b: usize) -> bool
        requires listed { k < self.now.count }
        requires inside { b < self.now.n }
        requires number { b ≡ inode_number self.now.ino.bytes.now k }
        ensures { Fills self.now.ino.bytes.now self.now.count self.now.n k b result }
    {
        if b % ROW != 0 || self.count < k + ROW || self.n < b + ROW {
            return false;
        }
        for j in 1..ROW {
            if self.at(k + j) != b + j {
                return false;
            }
        }
        true
    }

    // Claims number k, block b, in the byte of its row; or all eight blocks of the row where the next numbers are these and none is claimed.
    fn claim_next(&self, k: usize, b: usize, was: u8, least: usize) -> Turn
        requires listed { k < self.now.count }
        requires file { 3 ≤ b }
        requires inside { b < self.now.n }
        requires number { b ≡ inode_number self.now.ino.bytes.now k }
        ensures { Turned self.now.ino.bytes.now self.now.count self.now.n k b was least result.k result.byte result.least }
    {
        let free = was == 0;
        if self.fills_row(k, b) && free {
            return Turn {
                k: k + ROW,
                byte: u8::MAX,
                least,
            };
        }
        let byte = with_one(was, (b % ROW) as u32);
        Turn {
            k: k + 1,
            byte,
            least: lower(was == byte, b, least),
        }
    }

    // Claims the numbers as long as they are blocks of files, and gives the lowest block claimed twice so far; the row that is taken first is any.
    fn claim(&self, owned: &mut [u8; BLOCK], first: usize, low: usize) -> Option<usize>
        requires { first < 512 }
        ensures { Claimed (listed_wrong self.now.n self.now.ino.bytes.now self.now.count) (numbers_to self.now.ino.bytes.now self.now.count) owned.old low owned.new result }
    {
        let mut least = low;
        let mut taken = Taken::of(owned, first);
        let mut k = 0;
        // A turn takes one number or a row of them.
        while k < self.count {
            if !self.ino.in_volume(k, self.n) {
                return None;
            }
            let b = self.ino.block_number(k);
            taken = taken.moved(owned, b / ROW);
            let turn = self.claim_next(k, b, taken.byte, least);
            taken.byte = turn.byte;
            least = turn.least;
            k = turn.k;
        }
        taken.put(owned);
        Some(least)
    }
}

impl Volume<'_> {
    // Claims the blocks of the file whose inode is block `inode`, unless it breaks rule 5, and gives the lowest block claimed twice so far.
    fn claim_file(&self, inode: usize, owned: &mut [u8; BLOCK], low: usize) -> Option<usize>
        requires { inode < self.now.n }
        ensures { Claimed (inode_wrong 512 self.now.n (block 512 self.now.image.now inode)) (claim_list inode (block 512 self.now.image.now inode)) owned.old low owned.new result }
    {
        let ino = Inode::in_block(self.image, inode);
        let size = ino.size();
        if MAX_SIZE < size {
            return None;
        }
        let count = blocks_needed(size);
        if ino.spare_wrong(count) {
            return None;
        }
        let twice = map_bit(owned, inode);
        set_bit(owned, inode);
        let numbers = Numbers {
            ino,
            count,
            n: self.n,
        };
        numbers.claim(owned, inode / ROW, lower(twice, inode, low))
    }

    // The same of the file in slot s; a free slot, whose inode number is 0, claims nothing.
    fn claim_slot(&self, s: usize, owned: &mut [u8; BLOCK], low: usize) -> Option<usize>
        requires { s < 25 }
        ensures { Claimed (bad_inode 512 (view 512 self.now.image.now) s) (file_claims 512 (view 512 self.now.image.now) s) owned.old low owned.new result }
    {
        let inode = inode_at(self.image, s);
        let free = inode == 0;
        if free {
            return Some(low);
        }
        self.claim_file(inode as usize, owned, low)
    }

    // Claims the blocks of each file, up to the first that breaks rule 5, and gives the lowest of n and the blocks claimed twice.
    #[tactic(auto, unfolding(tfs_spec::specs::Check::claims))]
    pub fn claim_files(&self, owned: &mut [u8; BLOCK]) -> Result<usize, Fault>
        ensures verdict { verdict_told result ≡ found 5 25 (least (bad_inode 512 (view 512 self.now.image.now)) 25) consistent }
        ensures marked { OnOk result (owned.new ≡ set_bits owned.old 1 (claims 512 (view 512 self.now.image.now))) }
        ensures lowest { IfOk result (λ low. low ≡ doubled owned.old (claims 512 (view 512 self.now.image.now)) self.now.n) }
    {
        let mut low = self.n;
        for s in 0..SLOTS {
            let Some(least) = self.claim_slot(s, owned, low) else {
                return Err(Fault::BadInode(s as u32));
            };
            low = least;
        }
        Ok(low)
    }
}
