// A volume whose slots are formed.
ghost use Rattle.std.specs.Prelude.{◌≡◌};
ghost use Rattle.tfs_spec.specs.Layout.{blocks};
ghost use Rattle.tfs_check.specs.Files.{Formed};

// The image of a volume that keeps rules 1 to 4, and how many blocks it has.
#[derive(Clone, Copy)]
pub struct Volume<'a> {
    pub image: &'a [u8],
    pub n: usize,
    ghost formed: { Formed image.now },
    ghost counted: { n ≡ blocks 512 image.now },
}
