// An image that the check accepts.
ghost use Rattle.std.specs.Prelude.{◌≡◌};
ghost use Rattle.romfs_spec.specs.Check.{accepted};
ghost use Rattle.romfs_spec.specs.Check as rules;

use romfs_links::Tree;

#[derive(Clone, Copy)]
pub struct Checked<'a> {
    pub tree: Tree<'a>,
    pub ghost accepted: { rules.check tree.image.bytes.now ≡ accepted },
}
