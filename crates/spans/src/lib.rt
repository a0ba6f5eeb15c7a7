// Functions on spans of bytes, each with its result as an equation with a definition of lists or of specs/.
#![tactic(auto)]

pub mod words; // words.rt: big-endian 32-bit words
pub mod search; // search.rt: the first zero, the same bytes
pub mod copy; // copy.rt: fills and copies
pub mod bits; // bits.rt: one bit of a byte
