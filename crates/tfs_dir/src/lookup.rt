// The lookup of a name.
ghost use Rattle.std.specs.Prelude.{◌≡◌, ◌≤◌, length, IfOk};
ghost use Rattle.tfs_spec.specs.Layout.{view};
ghost use Rattle.tfs_spec.specs.Consistent.{File};
ghost use Rattle.tfs_spec.specs.Requests.{lookup};
ghost use Rattle.tfs_dir.specs.Lookup.{lookup_told};

use crate::names::name_allowed;
use crate::volume::slot_of;
use tfs_refusal::Refusal;

// The slot of the file of this name.
#[tactic(auto, unfolding(tfs_spec::specs::Requests::lookup))]
pub fn look_up(image: &[u8], name: &[u8]) -> Result<usize, Refusal>
    requires { 1536 ≤ length image.now }
    ensures told { lookup_told result ≡ lookup 512 (view 512 image.now) name.now }
    ensures file { IfOk result (File 512 (view 512 image.now)) }
{
    if !name_allowed(name) {
        return Err(Refusal::NameNotAllowed);
    }
    let Some(s) = slot_of(image, name) else {
        return Err(Refusal::NoSuchName);
    };
    Ok(s)
}
