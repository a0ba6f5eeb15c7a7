// What each request does on an image that the check accepts.
ghost use Rattle.std.specs.Prelude.{◌≡◌, ◌+◌, ◌==◌, ◌<◌, true, length, IfSome, IfErr};
ghost use Rattle.romfs_spec.specs.Layout.{type_of_file, name_length, content_at};
ghost use Rattle.romfs_spec.specs.Requests.{first_of, is_directory, match_from, find_step, entry_step, content_step, start_of};
ghost use Rattle.romfs_facts.specs.Tested.{IsReached};
ghost use Rattle.romfs_headers.specs.Known.{some_unless};
ghost use Rattle.romfs_refusal.specs.Told.{step_told};
ghost use Rattle.romfs_refusal.specs.declared.Refusal.TheVariants as refusal;
ghost use Rattle.romfs.specs.Told.{as_it_is, entry_of, length_of, part_start, PartFits};

use crate::parts::{Header, Part};
use romfs_check::Checked;
use romfs_headers::FileType;
use romfs_headers::words::{name_is, offset};
use romfs_links::Tree;
use romfs_refusal::Refusal;

// ---- find

fn has_type_directory(header: romfs_headers::Header<'_>) -> bool
    ensures { result ≡ (type_of_file header.entry.image.bytes.now header.entry.at == 1) }
{
    header.file_type() == FileType::Directory
}

fn is_directory(tree: Tree<'_>, dir: usize) -> bool
    ensures { result ≡ is_directory tree.entry.image.bytes.now dir }
{
    dir == 0 || tree.is_reached(dir) && has_type_directory(tree.header(dir))
}

// The first header of a directory's list. Directory 0 is the root.
fn first_of(tree: Tree<'_>, dir: usize) -> Option<usize>
    requires { is_directory tree.image.bytes.now dir ≡ true }
    ensures { result ≡ some_unless 0 (first_of tree.entry.image.bytes.now dir) }
{
    if dir == 0 {
        tree.first_root()
    } else {
        offset(tree.header(dir).info())
    }
}

// The first header of that name from a header on.
fn match_from(tree: Tree<'_>, first: usize, name: &[u8]) -> Option<usize>
    requires { IsReached tree.image.bytes.now first }
    ensures small { IfSome result (λ at. at < 4294967296) }
    ensures first { result ≡ some_unless 0 (match_from tree.entry.image.bytes.now name.now tree.entry.image.full first) }
{
    let mut p = first;
    // Along next, by what the image holds: there is no count to go by.
    loop {
        let header = tree.header(p).named();
        if name_is(tree.image.bytes, p + 16, header.name_length, name) {
            return Some(p);
        }
        p = header.header.next()?;
    }
}

#[tactic(auto, unfolding(romfs_spec::specs::Requests::find_step, romfs_spec::specs::Requests::match_in))]
pub fn find_step(checked: Checked<'_>, dir: usize, name: &[u8]) -> Result<u32, Refusal>
    ensures { step_told as_it_is result ≡ find_step checked.entry.tree.image.bytes.now dir name.now }
{
    let tree = checked.tree;
    if !is_directory(tree, dir) {
        return Err(Refusal::NoSuchHeader);
    }
    let Some(first) = first_of(tree, dir) else {
        return Err(Refusal::NoSuchName);
    };
    match match_from(tree, first, name) {
        Some(at) => Ok(at as u32),
        None => Err(Refusal::NoSuchName),
    }
}

// ---- entry

fn name_length_of(header: romfs_headers::Header<'_>) -> usize
    ensures length { result ≡ name_length header.entry.image.bytes.now (header.entry.at + 16) }
    ensures small { result < 4294967296 }
{
    header.named().name_length
}

#[tactic(auto, unfolding(romfs_spec::specs::Requests::entry_step, romfs_spec::specs::Requests::entry_at))]
pub fn entry_step(checked: Checked<'_>, at: usize) -> Result<Header, Refusal>
    ensures answer { step_told entry_of result ≡ entry_step checked.entry.tree.image.bytes.now at }
    ensures refusal { IfErr result (λ r. r ≡ refusal.NoSuchHeader) }
{
    let tree = checked.tree;
    if !tree.is_reached(at) {
        return Err(Refusal::NoSuchHeader);
    }
    let header = tree.header(at);
    Ok(Header {
        file_type: header.file_type(),
        executable: header.is_executable(),
        info: header.info() as u32,
        size: header.size() as u32,
        next: header.next().unwrap_or(0) as u32,
        name_length: name_length_of(header) as u32,
    })
}

// ---- content

#[tactic(auto, unfolding(romfs_spec::specs::Requests::content_step))]
pub fn content_step(checked: Checked<'_>, at: usize) -> Result<Part, Refusal>
    ensures answer { step_told length_of result ≡ content_step checked.entry.tree.image.bytes.now at }
    ensures start { part_start result ≡ start_of (content_at checked.entry.tree.image.bytes.now at) (content_step checked.entry.tree.image.bytes.now at) }
    ensures within { PartFits (length checked.entry.tree.image.bytes.now) result }
    ensures refusal { IfErr result (λ r. r ≡ refusal.NoSuchHeader) }
{
    let tree = checked.tree;
    if !tree.is_reached(at) {
        return Err(Refusal::NoSuchHeader);
    }
    let header = tree.header(at);
    if !header.file_type().has_data() {
        return Err(Refusal::NoSuchHeader);
    }
    Ok(Part {
        offset: header.named().content_at() as u32,
        length: header.size() as u32,
    })
}
