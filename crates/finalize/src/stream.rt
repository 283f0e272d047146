//! The standard library's readers and writers, with their failures counted.

ghost use Rattle.std.specs.Prelude.{◌≡◌, ℕ, ◌+◌, ◌<◌, ◌≤◌, List, Option, None, length, take, unwrap_or, ⊤};
ghost use Rattle.std.specs.Io.KnownBytes.{Appends};
ghost use Rattle.fz_runs.specs.Devices.{write_failures};
ghost use Rattle.finalize.specs.Streams.{taken_of};

use fz_runs::{Failures, Sink, Source};
use std::io;
use std::sync::ledger::Ledger;

/// A writer whose calls contracts can refer to.
pub(crate) trait Outlet {
    /// The bytes that it contains, if known.
    ghost contents: { Self → Option (List ℕ) };
    /// Whether a call with these bytes may return this and leave the writer in this state.
    ghost replies: { Self → List ℕ → Option ℕ → Self → Type 0 };

    /// Writes a prefix of the bytes, and returns its length. `None` means that the write failed.
    fn put(&mut self, bytes: &[u8]) -> Option<usize>
        ensures bound { (unwrap_or result 0) ≤ length bytes.now }
        ensures bytes { Appends (contents self.old) (contents self.new) (take (unwrap_or result 0) bytes.now) }
        ensures reply { replies self.old bytes.now result self.new };
}

// Contracts know nothing about what such a call does.
impl<W: io::Write> Outlet for W {
    ghost contents = { λ w. W.contents w };

    ghost replies = { λ _ _ _ _. ⊤ };

    fn put(&mut self, bytes: &[u8]) -> Option<usize> {
        self.write(bytes).ok()
    }
}

/// A stream that counts its failed calls.
#[derive(Drop)]
pub(crate) struct Stream<S, L: Ledger> {
    inner: S,
    failures: Failures<L>,
}

impl<S, L: Ledger> Stream<S, L> {
    pub(crate) fn new(inner: S, failures: Failures<L>) -> Stream<S, L>
        ensures { result ≡ record { inner = inner; failures = failures } }
    {
        Stream { inner, failures }
    }
}

impl<S: io::Read, L: Ledger> Source for Stream<S, L> {
    ghost feed = { λ s. record { remaining = S.remaining s.inner; failures = s.failures } };

    fn read(&mut self, buf: &mut [u8]) -> Option<usize> {
        match self.inner.read(buf) {
            Ok(count) => Some(count),
            Err(_) => {
                self.failures.count();
                None
            }
        }
    }
}

impl<S: Outlet, L: Ledger> Sink for Stream<S, L> {
    ghost log = { λ s. record { written = S.contents s.inner; failures = s.failures } };

    fn write(&mut self, bytes: &[u8]) -> Option<usize>
        ensures bound { unwrap_or result 0 ≤ length bytes.now }
        ensures bytes { Appends (S.contents self.old.inner) (S.contents self.new.inner) (take (unwrap_or result 0) bytes.now) }
        ensures failures { self.new.failures ≡ self.old.failures + write_failures (length bytes.now) result }
        // It fails only if the writer failed or took none of these bytes.
        ensures asked { 0 < length bytes.now → (reply : Option ℕ) × S.replies self.old.inner bytes.now reply self.new.inner × (result ≡ taken_of reply) }
    {
        if bytes.is_empty() {
            return Some(0);
        }
        match self.inner.put(bytes) {
            Some(0) | None => {
                self.failures.count();
                None
            }
            Some(count) => Some(count),
        }
    }
}
