//! Readers and writers of files.

ghost use Rattle.std.specs.Prelude.{◌≡◌, ◌<◌, ◌≤◌, ◌+◌, ℕ, List, [], Option, IfSome, Some, length, take, unwrap_or};
ghost use Rattle.std.specs.Io.KnownBytes.{Consumes, Appends, IsAtEnd};
ghost use Rattle.fz_runs.specs.Devices.{Feed, Log, read_failures, write_failures};

/// A reader.
pub trait Source {
    /// The bytes that are still to be read, and how many reads have failed.
    ghost feed: { Self → Feed };

    /// Reads bytes into the front of `buf`, and returns their number. If `buf` isn't empty, 0 means the end of the input. `None` means that the read failed.
    fn read(&mut self, buf: &mut [u8]) -> Option<usize>
        ensures bound { unwrap_or result 0 ≤ length buf.new }
        ensures bytes { Consumes (feed self.old).remaining (feed self.new).remaining (take (unwrap_or result 0) buf.new) }
        ensures end { result ≡ Some 0 → 0 < length buf.old → IsAtEnd (feed self.new).remaining }
        ensures failures { (feed self.new).failures ≡ (feed self.old).failures + read_failures result };
}

/// A writer.
pub trait Sink {
    /// The bytes written so far, and how many writes have failed. A write that takes none of the bytes offered counts as failed.
    ghost log: { Self → Log };

    /// Writes a prefix of the bytes, and returns its length. `None` means that the write failed.
    fn write(&mut self, bytes: &[u8]) -> Option<usize>
        ensures bound { unwrap_or result 0 ≤ length bytes.now }
        ensures bytes { Appends (log self.old).written (log self.new).written (take (unwrap_or result 0) bytes.now) }
        ensures failures { (log self.new).failures ≡ (log self.old).failures + write_failures (length bytes.now) result };
}
