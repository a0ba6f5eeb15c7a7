// Reads the records of a trace of TFS requests. Names and bytes that are read stay parts of the lent trace.
#![tactic(auto)]

mod kind; // kind.rt: the kinds of requests by their numbers
mod number; // number.rt: a number in groups of seven bits
mod read; // read.rt: the fields of a record

ghost use Rattle.std.specs.Prelude.{◌≡◌, IfSome};
ghost use Rattle.tfs_spec.specs.Traces.{read_number, read_string, read_record};
ghost use Rattle.tfs_facts.specs.Forward.{Forward};
ghost use Rattle.tfs_trace.specs.Told.{as_is, span_of, record_of, told, StringLies, InsideRecord, RecordLies};

use crate::number::number_at;

// Bytes of a trace: so many from a position on.
#[derive(Clone, Copy)]
pub struct Span {
    pub at: usize,
    pub len: usize,
}

// What a record asks.
#[derive(Clone, Copy)]
pub enum Call {
    Create {
        name: Span,
        size: u32,
    },
    Remove {
        name: Span,
    },
    // with the buffer's length
    Read {
        name: Span,
        offset: u32,
        len: u32,
    },
    Write {
        name: Span,
        offset: u32,
        bytes: Span,
    },
    Free,
}

// What answer a record expects.
#[derive(Clone, Copy)]
pub enum Expected {
    // granted: with no result; with the bytes read; with a count or free bytes
    Nothing,
    Bytes(Span),
    Amount(u32),
    // refused, by a number that is not 0
    Refusal(u32),
}

#[derive(Clone, Copy)]
pub struct Record {
    pub call: Call,
    pub expected: Expected,
}

// A position in a trace. It is handed on by value: what is read comes with the position behind it, and what is malformed is None.
#[derive(Clone, Copy)]
pub struct Cursor<'a> {
    pub trace: &'a [u8],
    pub at: usize,
}

impl<'a> Cursor<'a> {
    // The number at the cursor.
    pub fn number(self) -> Option<(u32, Cursor<'a>)>
        ensures value { told as_is result ≡ read_number self.entry.trace.now self.entry.at }
        ensures onward { IfSome result (λ read. Forward self.entry.trace.now self.entry.at read.1.at) }
        ensures trace { IfSome result (λ read. read.1.trace ≡ self.entry.trace) }
    {
        let (number, next) = number_at(self.trace, self.at)?;
        Some((number, Cursor { at: next, ..self }))
    }

    // The byte string at the cursor.
    #[tactic(auto, unfolding(tfs_spec::specs::Traces::read_string))]
    pub fn string(self) -> Option<(Span, Cursor<'a>)>
        ensures value { told (span_of self.entry.trace.now) result ≡ read_string self.entry.trace.now self.entry.at }
        ensures onward { IfSome result (λ read. Forward self.entry.trace.now self.entry.at read.1.at) }
        ensures lies { IfSome result (λ read. StringLies self.entry.trace.now self.entry.at read.0 read.1.at) }
        ensures trace { IfSome result (λ read. read.1.trace ≡ self.entry.trace) }
    {
        let (len, from) = number_at(self.trace, self.at)?;
        let len = len as usize;
        let end = from + len;
        if self.trace.len() < end {
            return None;
        }
        Some((Span { at: from, len }, Cursor { at: end, ..self }))
    }

    // The record at the cursor.
    #[tactic(auto, unfolding(tfs_spec::specs::Traces::read_record))]
    pub fn record(self) -> Option<(Record, Cursor<'a>)>
        ensures value { told (record_of self.entry.trace.now) result ≡ read_record self.entry.trace.now self.entry.at }
        ensures onward { IfSome result (λ read. Forward self.entry.trace.now self.entry.at read.1.at) }
        ensures inside { IfSome result (λ read. InsideRecord self.entry.trace.now read.0) }
        ensures lies { IfSome result (λ read. RecordLies self.entry.trace.now self.entry.at read.0 read.1.at) }
        ensures trace { IfSome result (λ read. read.1.trace ≡ self.entry.trace) }
    {
        let (call, middle) = self.call()?;
        let (expected, next) = middle.expected(call)?;
        Some((Record { call, expected }, next))
    }
}
