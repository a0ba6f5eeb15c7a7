// Blocks 0 to 2 of a fresh volume.
ghost use Rattle.std.specs.Prelude.{◌≡◌, ◌≤◌, length};
ghost use Rattle.tfs_spec.specs.Layout.{set_block};
ghost use Rattle.tfs_spec.specs.Requests.{store_all, format_stores};
ghost use Rattle.tfs_steps.specs.Format.{fresh_head, fresh_map, fresh_dir};

use tfs_layout::{BLOCK, DIR_AT, LOW_END, MAGIC, MAP_AT, NAME_AT};
use tfs_map::bits::put_bits;

// The magic number, then the label and zeros.
#[tactic(auto, unfolding(lists::specs::Lists::with_part, crate::specs::Format::fresh_head))]
fn fill_head(head: &mut [u8], label: &[u8])
    requires { (length head.old ≡ 512) × (length label.now ≤ 15) }
    ensures { head.new ≡ fresh_head 512 label.now }
{
    head.fill(0);
    head[0..NAME_AT].copy_from_slice(&MAGIC.to_be_bytes());
    let end = NAME_AT + label.len();
    head[NAME_AT..end].copy_from_slice(label);
}

// The map in which the first three blocks are reserved.
#[tactic(auto, unfolding(crate::specs::Format::fresh_map))]
fn fill_map(map: &mut [u8])
    requires { length map.old ≡ 512 }
    ensures { map.new ≡ fresh_map 512 }
{
    map.fill(0);
    put_bits(map, &[0, 1, 2], true);
}

// Block 0.
#[tactic(auto, unfolding(lists::specs::Lists::part, lists::specs::Lists::with_part, tfs_spec::specs::Layout::block, tfs_spec::specs::Layout::set_block))]
fn format_head(image: &mut [u8], label: &[u8])
    requires { (1536 ≤ length image.old) × (length label.now ≤ 15) }
    ensures { image.new ≡ set_block 512 image.old 0 (fresh_head 512 label.now) }
{
    fill_head(&mut image[0..BLOCK], label);
}

// Block 1.
#[tactic(auto, unfolding(lists::specs::Lists::part, lists::specs::Lists::with_part, tfs_spec::specs::Layout::block, tfs_spec::specs::Layout::set_block))]
fn format_map(image: &mut [u8])
    requires { 1536 ≤ length image.old }
    ensures { image.new ≡ set_block 512 image.old 1 (fresh_map 512) }
{
    fill_map(&mut image[MAP_AT..DIR_AT]);
}

// Block 2.
#[tactic(auto, unfolding(lists::specs::Lists::part, lists::specs::Lists::with_part, tfs_spec::specs::Layout::block, tfs_spec::specs::Layout::set_block, crate::specs::Format::fresh_dir))]
fn format_dir(image: &mut [u8])
    requires { 1536 ≤ length image.old }
    ensures { image.new ≡ set_block 512 image.old 2 (fresh_dir 512) }
{
    image[DIR_AT..LOW_END].fill(0);
}

// The three blocks of a volume with no files.
#[tactic(auto, unfolding(tfs_spec::specs::Requests::format_stores, crate::specs::Format::fresh_head, crate::specs::Format::fresh_map, crate::specs::Format::fresh_dir))]
pub fn format_blocks(image: &mut [u8], label: &[u8])
    requires { (1536 ≤ length image.old) × (length label.now ≤ 15) }
    ensures { image.new ≡ store_all 512 image.old (format_stores 512 label.now) }
{
    format_head(image, label);
    format_map(image);
    format_dir(image);
}
