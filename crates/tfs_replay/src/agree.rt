// An answer against the one expected.
ghost use Rattle.std.specs.Prelude.{◌≡◌};
ghost use Rattle.tfs_replay.specs.Agree.{answer_agrees, read_agrees};

use tfs_refusal::Refusal;
use tfs_trace::Expected;

// Of a request that moves no bytes: the number that it is granted with, 0 where it has none.
pub fn answer_agrees(answer: Result<u32, Refusal>, expected: Expected) -> bool
    ensures { result ≡ answer_agrees answer expected }
{
    match (answer, expected) {
        (Ok(_), Expected::Nothing) => true,
        (Ok(x), Expected::Amount(n)) => x == n,
        (Ok(_), Expected::Refusal(n)) => 0 == n,
        (Err(refusal), Expected::Refusal(n)) => refusal.number() == n,
        _ => false,
    }
}

// Of a read: whether it gives the bytes expected.
pub fn read_agrees(same: Result<bool, Refusal>, expected: Expected) -> bool
    ensures { result ≡ read_agrees same expected }
{
    match (same, expected) {
        (Ok(same), Expected::Bytes(_)) => same,
        (Ok(_), Expected::Refusal(n)) => 0 == n,
        (Err(refused), Expected::Refusal(n)) => refused.number() == n,
        _ => false,
    }
}
