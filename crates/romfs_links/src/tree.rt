// An image that has passed rules 21 to 28.
ghost use Rattle.romfs_links.specs.Known.{Walked};

use romfs_headers::{Header, Image};

#[derive(Clone, Copy)]
pub struct Tree<'a> {
    pub image: Image<'a>,
    pub ghost walked: { Walked image.bytes.now image.full },
}

impl<'a> Tree<'a> {
    ghost use Rattle.std.specs.Prelude.{◌≡◌};
    ghost use Rattle.romfs_spec.specs.Layout.{first_root};
    ghost use Rattle.romfs_facts.specs.Tested.{IsReached};
    ghost use Rattle.romfs_headers.specs.Known.{some_unless};

    // A reached header.
    pub fn header(self, at: usize) -> Header<'a>
        requires { IsReached self.image.bytes.now at }
        ensures image { result.image ≡ self.entry.image }
        ensures at { result.at ≡ at }
    {
        self.image.header(at)
    }

    // The root's first header.
    #[tactic(auto, using(crate::specs::Facts::full_at_least))]
    pub fn first_root(self) -> Option<usize>
        ensures { result ≡ some_unless self.entry.image.full (first_root self.entry.image.bytes.now) }
    {
        self.image.first_root()
    }
}
