// A window of the image, of 1,048,576 bytes: a bit for each offset in steps of 16, which is 1 where a reached header stands.
ghost use Rattle.std.specs.Prelude.{◌≤◌};

use spans::bits::{bit_of, with_one};

// The bytes of the image that a window covers.
pub const WINDOW: usize = 1048576;

// The bits of the window from lo on.
#[derive(Drop)]
pub struct Marks {
    pub lo: usize,
    pub bits: [u8; 8192],
    pub ghost from: { lo ≤ 4294967296 },
}

impl Marks {
    ghost use Rattle.std.specs.Prelude.{◌≡◌};
    ghost use Rattle.romfs_links.specs.Window.{in_window, mark_at, is_marked};

    // Whether an offset has a bit.
    #[tactic(auto, unfolding(crate::specs::Window::in_window))]
    fn covers(&self, p: usize) -> bool
        ensures { result ≡ in_window self.now.lo p }
    {
        self.lo <= p && p < self.lo + WINDOW && (p - self.lo) % 16 == 0
    }

    // Marks an offset, if it has a bit.
    #[tactic(auto, using(crate::specs::Window::window_from, crate::specs::Window::window_byte), unfolding(crate::specs::Window::mark_at))]
    pub fn mark(&mut self, p: usize)
        ensures bits { self.new.bits ≡ mark_at self.old.bits self.old.lo p }
        ensures lo { self.new.lo ≡ self.old.lo }
    {
        if self.covers(p) {
            let i = (p - self.lo) / 16;
            self.bits[i / 8] = with_one(self.bits[i / 8], (i % 8) as u32);
        }
    }

    // Whether an offset is marked.
    #[tactic(auto, using(crate::specs::Window::window_from, crate::specs::Window::window_byte), unfolding(crate::specs::Window::is_marked))]
    pub fn is_marked(&self, p: usize) -> bool
        ensures { result ≡ is_marked self.now.bits self.now.lo p }
    {
        if !self.covers(p) {
            return false;
        }
        let i = (p - self.lo) / 16;
        bit_of(self.bits[i / 8], (i % 8) as u32) == 1
    }
}
