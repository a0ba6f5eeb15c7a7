// romfs check: rules 21 to 29. The requests are in romfs.
#![tactic(auto)]

ghost use Rattle.std.specs.Prelude.{◌≡◌, IfOk};
ghost use Rattle.romfs_spec.specs.Check.{walk, links, and_then};
ghost use Rattle.romfs_spec.specs.Check as rules;
ghost use Rattle.romfs_facts.specs.Walked.{Volume};
ghost use Rattle.romfs_refusal.specs.Told.{verdict_told};
ghost use Rattle.romfs_links.specs.Window.{Window};

use crate::volume::check_volume;
use crate::walk::walk_all;
use romfs_headers::Image;
use romfs_links::{Marks, Tree};
use romfs_refusal::Fault;

mod checked; // checked.rt: an image that the check accepts
mod volume; // volume.rt: rules 21 to 25
mod walk; // walk.rt: rules 26 to 28

pub use checked::Checked;

// Rule 29, of a walked image whose first window is marked.
#[tactic(auto, unfolding(romfs_spec::specs::Check::links))]
fn check_links(tree: Tree<'_>, marks: &mut Marks) -> Result<(), Fault>
    requires { (marks.old.lo ≡ 0) × Window tree.image.bytes.now 0 marks.old.bits }
    ensures { verdict_told result ≡ links tree.entry.image.bytes.now }
{
    match tree.lowest_bad_link(marks) {
        Some(low) => Err(Fault::BadLink(low as u32)),
        None => Ok(()),
    }
}

// Rules 26 to 29, of an image whose volume header is right.
fn check_headers<'a>(image: Image<'a>) -> Result<Tree<'a>, Fault>
    requires { Volume image.bytes.now }
    ensures verdict { verdict_told result ≡ and_then (walk image.entry.bytes.now) (links image.entry.bytes.now) }
    ensures image { IfOk result (λ tree. tree.image ≡ image.entry) }
{
    let mut marks = Marks {
        lo: 0,
        bits: [0; 8192],
    };
    walk_all(image, &mut marks)?;
    let tree = Tree { image };
    check_links(tree, &mut marks)?;
    Ok(tree)
}

pub fn check<'a>(image: &'a [u8]) -> Result<Checked<'a>, Fault>
    ensures verdict { verdict_told result ≡ rules.check image.now }
    ensures image { IfOk result (λ checked. checked.tree.image.bytes.now ≡ image.now) }
{
    let image = check_volume(image)?;
    let tree = check_headers(image)?;
    Ok(Checked { tree })
}
