// Rules 26 to 28 at a header.
ghost use Rattle.std.specs.Prelude.{◌≡◌, ◌+◌, ◌-◌, ◌<◌, ◌≤◌, IfOk};
ghost use Rattle.romfs_spec.specs.Layout.{content_at, end_of};
ghost use Rattle.romfs_spec.specs.Check.{bad_name, bad_sum, bad_info, bad_size, bad_header, bad_next, fault};
ghost use Rattle.romfs_refusal.specs.Told.{verdict_told};
ghost use Rattle.romfs_headers.specs.Known.{list_of};

use crate::header::{List, Named};
use crate::image::Image;
use crate::words::{after_name, padded, sum_words};
use romfs_refusal::Fault;

impl<'a> Named<'a> {
    // Where its padded name ends and its data begins.
    #[tactic(auto, unfolding(romfs_spec::specs::Layout::content_at, romfs_spec::specs::Layout::after_name))]
    pub fn content_at(self) -> usize
        ensures offset { result ≡ content_at self.entry.header.image.bytes.now self.entry.header.at }
        ensures within { result ≤ self.entry.header.image.full + 16 }
    {
        after_name(self.header.at + 16, self.name_length)
    }

    // Where its padded data ends.
    #[tactic(auto, unfolding(romfs_spec::specs::Layout::end_of))]
    fn end(self) -> usize
        ensures { result ≡ end_of self.entry.header.image.bytes.now self.entry.header.at }
    {
        self.content_at() + padded(self.header.size())
    }

    // ---- rule 26

    #[tactic(auto, unfolding(romfs_spec::specs::Check::bad_name, romfs_spec::specs::Layout::name_ends))]
    fn bad_name(self) -> bool
        ensures { result ≡ bad_name self.entry.header.image.bytes.now self.entry.header.at }
    {
        self.name_length == 0 || self.header.at + 16 + self.name_length >= self.header.image.full
    }

    // The sum covers 16 bytes and the padded name.
    #[tactic(auto, unfolding(romfs_spec::specs::Check::bad_sum, romfs_spec::specs::Layout::end_of, romfs_spec::specs::Layout::content_at, romfs_spec::specs::Layout::after_name))]
    fn bad_sum(self) -> bool
        requires { end_of self.header.image.bytes.now self.header.at ≤ self.header.image.full }
        ensures { result ≡ bad_sum self.entry.header.image.bytes.now self.entry.header.at }
    {
        let at = self.header.at;
        let n = self.content_at() - at;
        sum_words(self.header.image.bytes, at, n / 4) != 0
    }

    #[tactic(auto, unfolding(romfs_spec::specs::Check::bad_info))]
    fn bad_info(self) -> bool
        ensures { result ≡ bad_info self.entry.header.image.bytes.now self.entry.header.at }
    {
        self.header.file_type().has_no_info() && self.header.info() != 0
    }

    #[tactic(auto, unfolding(romfs_spec::specs::Check::bad_size))]
    fn bad_size(self) -> bool
        ensures { result ≡ bad_size self.entry.header.image.bytes.now self.entry.header.at }
    {
        !self.header.file_type().has_data() && self.header.size() != 0
    }

    // It ends at end.
    #[tactic(auto, unfolding(romfs_spec::specs::Check::bad_header, romfs_spec::specs::Check::over_bound))]
    fn bad_header(self, end: usize, bound: usize) -> bool
        requires { (end ≡ end_of self.header.image.bytes.now self.header.at) × (bound ≤ self.header.image.full) }
        ensures { result ≡ bad_header self.entry.header.image.bytes.now bound self.entry.header.at }
    {
        bound < end || self.bad_name() || self.bad_sum() || self.bad_info() || self.bad_size()
    }

    // ---- rule 27

    // A next header stands from the entry's end on and under the bound.
    #[tactic(auto, unfolding(romfs_spec::specs::Check::bad_next))]
    fn bad_next(self, end: usize, bound: usize) -> bool
        requires { end ≡ end_of self.header.image.bytes.now self.header.at }
        ensures { result ≡ bad_next self.entry.header.image.bytes.now bound self.entry.header.at }
    {
        match self.header.next() {
            Some(next) => next < end || bound <= next,
            None => false,
        }
    }
}

impl List {
    ghost use Rattle.std.specs.Prelude.{not, ◌||◌, ◌%◌, ◌==◌, nat_lt, nat_le};

    // A first header is a multiple of 16, from the entry's end on and under its own bound.
    fn is_bad(self, end: usize) -> bool
        ensures { result ≡ (not (self.first % 16 == 0) || (nat_lt self.first end || nat_le self.bound self.first)) }
    {
        self.first % 16 != 0 || self.first < end || self.bound <= self.first
    }
}

impl<'a> Image<'a> {
    // What the walk meets at an offset in a list with a bound: a fault, or a header and its own list. left is how many
    // lists may be below the header's own.
    #[tactic(auto, using(crate::proofs::Laws::fault_short), unfolding(romfs_spec::specs::Check::fault, romfs_spec::specs::Check::bad_nesting, romfs_spec::specs::Check::bad_first, romfs_spec::specs::Check::too_deep))]
    pub fn read_entry(self, at: usize, bound: usize, left: usize) -> Result<Option<List>, Fault>
        requires { (at < bound) × (bound ≤ self.full) × (left ≤ 7) }
        ensures fault { verdict_told result ≡ fault self.entry.bytes.now bound (8 - left) at }
        ensures list { IfOk result (λ list. list ≡ list_of self.entry.bytes.now bound at) }
    {
        let place = at as u32;
        if bound < at + 32 {
            return Err(Fault::BadHeader(place));
        }
        let header = self.header(at).named();
        let end = header.end();
        if header.bad_header(end, bound) {
            return Err(Fault::BadHeader(place));
        }
        if header.bad_next(end, bound) {
            return Err(Fault::BadNesting(place));
        }
        let Some(list) = header.header.list(bound) else {
            return Ok(None);
        };
        if list.is_bad(end) {
            return Err(Fault::BadNesting(place));
        }
        if left == 0 {
            return Err(Fault::TooDeep(place));
        }
        Ok(Some(list))
    }
}
