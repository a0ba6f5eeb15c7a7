// The fields of a record.
ghost use Rattle.std.specs.Prelude.{◌≡◌, ◌+◌, IfSome};
ghost use Rattle.tfs_spec.specs.Traces.{read_create, read_remove, read_read, read_write, read_call, read_expected};
ghost use Rattle.tfs_facts.specs.Forward.{Forward};
ghost use Rattle.tfs_trace.specs.Told.{call_of, expected_of, told, CallFits, ExpectedFits};

use crate::kind::Kind;
use crate::{Call, Cursor, Expected};

impl<'a> Cursor<'a> {
    #[tactic(auto, unfolding(tfs_spec::specs::Traces::read_create))]
    fn create(self) -> Option<(Call, Cursor<'a>)>
        ensures value { told (call_of self.entry.trace.now) result ≡ read_create self.entry.trace.now self.entry.at }
        ensures onward { IfSome result (λ read. Forward self.entry.trace.now self.entry.at read.1.at) }
        ensures fits { IfSome result (λ read. CallFits self.entry.trace.now self.entry.at read.0 read.1.at) }
        ensures trace { IfSome result (λ read. read.1.trace ≡ self.entry.trace) }
    {
        let (name, cursor) = self.string()?;
        let (size, cursor) = cursor.number()?;
        Some((Call::Create { name, size }, cursor))
    }

    #[tactic(auto, unfolding(tfs_spec::specs::Traces::read_remove))]
    fn remove(self) -> Option<(Call, Cursor<'a>)>
        ensures value { told (call_of self.entry.trace.now) result ≡ read_remove self.entry.trace.now self.entry.at }
        ensures onward { IfSome result (λ read. Forward self.entry.trace.now self.entry.at read.1.at) }
        ensures fits { IfSome result (λ read. CallFits self.entry.trace.now self.entry.at read.0 read.1.at) }
        ensures trace { IfSome result (λ read. read.1.trace ≡ self.entry.trace) }
    {
        let (name, cursor) = self.string()?;
        Some((Call::Remove { name }, cursor))
    }

    #[tactic(auto, unfolding(tfs_spec::specs::Traces::read_read))]
    fn read(self) -> Option<(Call, Cursor<'a>)>
        ensures value { told (call_of self.entry.trace.now) result ≡ read_read self.entry.trace.now self.entry.at }
        ensures onward { IfSome result (λ read. Forward self.entry.trace.now self.entry.at read.1.at) }
        ensures fits { IfSome result (λ read. CallFits self.entry.trace.now self.entry.at read.0 read.1.at) }
        ensures trace { IfSome result (λ read. read.1.trace ≡ self.entry.trace) }
    {
        let (name, cursor) = self.string()?;
        let (offset, cursor) = cursor.number()?;
        let (len, cursor) = cursor.number()?;
        Some((Call::Read { name, offset, len }, cursor))
    }

    #[tactic(auto, unfolding(tfs_spec::specs::Traces::read_write))]
    fn write(self) -> Option<(Call, Cursor<'a>)>
        ensures value { told (call_of self.entry.trace.now) result ≡ read_write self.entry.trace.now self.entry.at }
        ensures onward { IfSome result (λ read. Forward self.entry.trace.now self.entry.at read.1.at) }
        ensures fits { IfSome result (λ read. CallFits self.entry.trace.now self.entry.at read.0 read.1.at) }
        ensures trace { IfSome result (λ read. read.1.trace ≡ self.entry.trace) }
    {
        let (name, cursor) = self.string()?;
        let (offset, cursor) = cursor.number()?;
        let (bytes, cursor) = cursor.string()?;
        Some((
            Call::Write {
                name,
                offset,
                bytes,
            },
            cursor,
        ))
    }

    // What the record at the position asks.
    #[tactic(auto, unfolding(tfs_spec::specs::Traces::read_call))]
    pub(crate) fn call(self) -> Option<(Call, Cursor<'a>)>
        ensures value { told (call_of self.entry.trace.now) result ≡ read_call self.entry.trace.now self.entry.at }
        ensures onward { IfSome result (λ read. Forward self.entry.trace.now self.entry.at read.1.at) }
        ensures fits { IfSome result (λ read. CallFits self.entry.trace.now (self.entry.at + 1) read.0 read.1.at) }
        ensures trace { IfSome result (λ read. read.1.trace ≡ self.entry.trace) }
    {
        let (number, cursor) = self.number()?;
        match Kind::try_from(number).ok()? {
            Kind::Create => cursor.create(),
            Kind::Remove => cursor.remove(),
            Kind::Read => cursor.read(),
            Kind::Write => cursor.write(),
            Kind::Free => Some((Call::Free, cursor)),
        }
    }

    // The answer expected of a request, at the position.
    #[tactic(auto, unfolding(tfs_spec::specs::Traces::read_expected))]
    pub(crate) fn expected(self, call: Call) -> Option<(Expected, Cursor<'a>)>
        ensures value { told (expected_of self.entry.trace.now) result ≡ read_expected (call_of self.entry.trace.now call) self.entry.trace.now self.entry.at }
        ensures onward { IfSome result (λ read. Forward self.entry.trace.now self.entry.at read.1.at) }
        ensures fits { IfSome result (λ read. ExpectedFits self.entry.trace.now call read.0 read.1.at) }
        ensures trace { IfSome result (λ read. read.1.trace ≡ self.entry.trace) }
    {
        let (refusal, cursor) = self.number()?;
        let granted = refusal == 0;
        if !granted {
            return Some((Expected::Refusal(refusal), cursor));
        }
        match call {
            Call::Create { .. } => Some((Expected::Nothing, cursor)),
            Call::Remove { .. } => Some((Expected::Nothing, cursor)),
            Call::Read { .. } => {
                let (bytes, cursor) = cursor.string()?;
                Some((Expected::Bytes(bytes), cursor))
            }
            Call::Write { .. } => {
                let (count, cursor) = cursor.number()?;
                Some((Expected::Amount(count), cursor))
            }
            Call::Free => {
                let (free, cursor) = cursor.number()?;
                Some((Expected::Amount(free), cursor))
            }
        }
    }
}
