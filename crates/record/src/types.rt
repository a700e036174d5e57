// What a record of a file holds, and what reading one and rescuing a file answer.
use sheet::{Figure, Refusal};

/// A record: its offset, the offset of what follows it, its ink and its figure.
#[derive(Clone, Copy, Debug, PartialEq, Eq, Hash)]
pub struct Record {
    pub offset: usize,
    pub next: usize,
    pub ink: u8,
    pub figure: Figure,
}

/// What stands at an offset: a record, the file's end, or a refusal with the offset of the offending field's first byte.
#[derive(Clone, Copy, Debug, PartialEq, Eq, Hash)]
pub enum Read {
    Record(Record),
    End,
    Refused(Refusal, usize),
}

/// What a rescue did: how many bytes it copied, and how many places of each list it filled.
#[derive(Clone, Copy, Debug, PartialEq, Eq, Hash)]
pub struct Rescued {
    pub copied: usize,
    pub listed: usize,
}
