// Rules 26 to 28: the walk.
ghost use Rattle.std.specs.Prelude.{◌≡◌, ◌-◌, IfOk};
ghost use Rattle.romfs_spec.specs.Check.{fault, visit_list, visit_entry, walk};
ghost use Rattle.romfs_facts.specs.Walked.{Volume};
ghost use Rattle.romfs_refusal.specs.Told.{verdict_told};
ghost use Rattle.romfs_headers.specs.Known.{list_of};
ghost use Rattle.romfs_links.specs.Window.{Window};
ghost use Rattle.romfs_check.specs.Known.{Here};

use romfs_headers::{Image, List};
use romfs_links::Marks;
use romfs_refusal::Fault;

// What the walk meets at a header, which is marked for the links.
fn step_at(
    image: Image<'_>,
    p: usize,
    bound: usize,
    left: usize,
    marks: &mut Marks,
) -> Result<Option<List>, Fault>
    requires { Here image.bytes.now image.full p bound left × (marks.old.lo ≡ 0) × Window image.bytes.now 0 marks.old.bits }
    ensures fault { verdict_told result ≡ fault image.entry.bytes.now bound (8 - left) p }
    ensures list { IfOk result (λ list. list ≡ list_of image.entry.bytes.now bound p) }
    ensures lo { marks.new.lo ≡ 0 }
    ensures window { Window image.entry.bytes.now 0 marks.new.bits }
{
    marks.mark(p);
    image.read_entry(p, bound, left)
}

// A list visits its entries.
#[cycle(walk_entry_walk_list)]
fn walk_list(image: Image<'_>, list: List, left: usize, marks: &mut Marks) -> Result<(), Fault>
    requires { Here image.bytes.now image.full list.first list.bound left × (marks.old.lo ≡ 0) × Window image.bytes.now 0 marks.old.bits }
    ensures verdict { verdict_told result ≡ visit_list image.entry.bytes.now (visit_entry image.entry.bytes.now (fault image.entry.bytes.now) left list.bound) (list.bound - list.first) list.first }
    ensures lo { marks.new.lo ≡ 0 }
    ensures window { Window image.entry.bytes.now 0 marks.new.bits }
{
    let mut p = list.first;
    // Along next, by what the image holds: there is no count to go by.
    loop {
        walk_entry(image, p, list.bound, left, marks)?;
        let Some(next) = image.header(p).next() else {
            return Ok(());
        };
        p = next;
    }
}

// An entry, then its list.
#[cycle(walk_entry_walk_list)]
fn walk_entry(
    image: Image<'_>,
    p: usize,
    bound: usize,
    left: usize,
    marks: &mut Marks,
) -> Result<(), Fault>
    requires { Here image.bytes.now image.full p bound left × (marks.old.lo ≡ 0) × Window image.bytes.now 0 marks.old.bits }
    ensures verdict { verdict_told result ≡ visit_entry image.entry.bytes.now (fault image.entry.bytes.now) left bound p }
    ensures lo { marks.new.lo ≡ 0 }
    ensures window { Window image.entry.bytes.now 0 marks.new.bits }
{
    match step_at(image, p, bound, left, marks)? {
        Some(list) => walk_list(image, list, left - 1, marks),
        None => Ok(()),
    }
}

// The whole image.
#[tactic(auto, unfolding(romfs_spec::specs::Check::walk))]
pub fn walk_all(image: Image<'_>, marks: &mut Marks) -> Result<(), Fault>
    requires { Volume image.bytes.now × (marks.old.lo ≡ 0) × Window image.bytes.now 0 marks.old.bits }
    ensures verdict { verdict_told result ≡ walk image.entry.bytes.now }
    ensures lo { marks.new.lo ≡ 0 }
    ensures window { Window image.entry.bytes.now 0 marks.new.bits }
{
    match image.first_root() {
        Some(first) => {
            let list = List {
                first,
                bound: image.full,
            };
            walk_list(image, list, 7, marks)
        }
        None => Ok(()),
    }
}
