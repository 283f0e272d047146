//! Readers and writers in memory, for tests. They transfer everything at once or one byte per call, and fail when the test says so.

ghost use Rattle.std.specs.Prelude.{Some, ◌≡◌, ◌≤◌, ◌<◌, []};

use crate::text::{Failures, Sink, Source};
use arrayvec::ArrayVec;
use std::sync::ledger::Ledger;

/// How many bytes a device transfers in one call.
#[derive(Clone, Copy)]
pub enum Pieces {
    /// As many as there is room for.
    Whole,
    /// One byte.
    Single,
}

impl Pieces {
    /// How many of these bytes one call transfers.
    fn of(self, len: usize) -> usize
        ensures whole { self ≡ Pieces.Whole → result ≡ len }
        ensures single { self ≡ Pieces.Single → result ≤ 1 }
        ensures within { result ≤ len }
        ensures some { 0 < len → 0 < result }
    {
        match self {
            Pieces::Whole => len,
            Pieces::Single => len.min(1),
        }
    }
}

/// How many bytes the devices of a run transfer per call, and after how many calls they fail.
#[derive(Clone, Copy)]
pub struct Limits {
    pub pieces: Pieces,
    pub reads: u64,
    pub writes: u64,
}

/// Devices that transfer as much as they can, and never fail.
pub const WHOLE: Limits = Limits {
    pieces: Pieces::Whole,
    reads: u64::MAX,
    writes: u64::MAX,
};

/// Devices that transfer one byte per call, and fail after the given number of calls.
pub fn bytewise(reads: usize, writes: usize) -> Limits
    ensures { result ≡ record { pieces = Pieces.Single; reads = reads; writes = writes } }
{
    Limits {
        pieces: Pieces::Single,
        reads: reads as u64,
        writes: writes as u64,
    }
}

/// A reader of its bytes, in pieces of the given size, which fails after the given number of reads.
#[derive(Drop)]
pub struct MemorySource<'a, L: Ledger> {
    rest: &'a [u8],
    pieces: Pieces,
    reads: u64,
    failures: Failures<L>,
}

impl<'a, L: Ledger> MemorySource<'a, L> {
    /// A reader of these bytes. The read with number `reads`, counted from 0, fails, and so does each later one.
    pub fn new(
        bytes: &'a [u8],
        pieces: Pieces,
        reads: u64,
        failures: Failures<L>,
    ) -> MemorySource<'a, L>
        ensures { (result.rest ≡ bytes.entry) × (result.pieces ≡ pieces) × (result.reads ≡ reads) × (result.failures ≡ failures) }
    {
        MemorySource {
            rest: bytes,
            pieces,
            reads,
            failures,
        }
    }
}

impl<L: Ledger> Source for MemorySource<'_, L> {
    ghost feed = { λ s. record { remaining = Some s.rest.now; failures = s.failures } };

    fn read(&mut self, buf: &mut [u8]) -> Option<usize> {
        if self.reads == 0 {
            self.failures.count();
            return None;
        }
        self.reads -= 1;
        let count = self.pieces.of(self.rest.len().min(buf.len()));
        let (front, rest) = self.rest.split_at(count);
        buf[..count].copy_from_slice(front);
        self.rest = rest;
        Some(count)
    }
}

/// A writer of up to 4,096 bytes in all, in pieces of the given size, which fails after the given number of writes.
#[derive(Drop)]
pub struct MemorySink<L: Ledger> {
    bytes: ArrayVec<u8, 4096>,
    pieces: Pieces,
    writes: u64,
    failures: Failures<L>,
}

impl<L: Ledger> MemorySink<L> {
    /// An empty writer. The write with number `writes`, counted from 0, fails, and so does each later one.
    pub fn new(pieces: Pieces, writes: u64, failures: Failures<L>) -> MemorySink<L>
        ensures { (result.bytes.items ≡ []) × (result.pieces ≡ pieces) × (result.writes ≡ writes) × (result.failures ≡ failures) }
    {
        MemorySink {
            bytes: ArrayVec::new(),
            pieces,
            writes,
            failures,
        }
    }

    /// What was written.
    pub fn into_bytes(self) -> ArrayVec<u8, 4096>
        ensures { result.items ≡ self.bytes.items }
    {
        self.bytes
    }
}

impl<L: Ledger> Sink for MemorySink<L> {
    ghost log = { λ p. record { written = Some p.bytes.items; failures = p.failures } };

    fn write(&mut self, bytes: &[u8]) -> Option<usize> {
        if self.writes == 0 || self.bytes.is_full() {
            self.failures.count();
            return None;
        }
        self.writes -= 1;
        let count = self
            .pieces
            .of(bytes.len().min(self.bytes.remaining_capacity()));
        self.bytes.try_extend_from_slice(&bytes[..count]).unwrap();
        Some(count)
    }
}
