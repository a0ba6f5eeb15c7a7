// Names as requests and slots have them.
ghost use Rattle.std.specs.Prelude.{◌≡◌, length};
ghost use Rattle.tfs_spec.specs.Layout.{name_formed, name_allowed, label_allowed};

use spans::search::first_zero;
use tfs_layout::NAME;

// Whether a volume may have this name: under 16 bytes, none of them zero.
#[tactic(auto, unfolding(tfs_spec::specs::Layout::label_allowed))]
pub fn label_allowed(name: &[u8]) -> bool
    ensures { result ≡ label_allowed name.now }
{
    name.len() < NAME && first_zero(name) == name.len()
}

// Whether a file may have this name: as a volume, and not empty.
#[tactic(auto, unfolding(tfs_spec::specs::Layout::name_allowed))]
pub fn name_allowed(name: &[u8]) -> bool
    ensures { result ≡ name_allowed name.now }
{
    1 <= name.len() && label_allowed(name)
}

// Whether a slot's name field has a zero, and does not begin with one.
#[tactic(auto, unfolding(tfs_spec::specs::Layout::name_formed, lists::specs::Lists::zero_at))]
pub fn name_formed(field: &[u8]) -> bool
    requires { length field.now ≡ 16 }
    ensures { result ≡ name_formed field.now }
{
    field[0] != 0 && first_zero(field) < NAME
}
