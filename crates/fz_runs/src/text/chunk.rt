//! A buffer of input.

ghost use Rattle.std.specs.Prelude.{◌≡◌, ◌≤◌, drop, length, take};

/// A buffer of at most 8,192 bytes: those of the last read that weren't consumed yet.
#[derive(Drop)]
pub struct Chunk {
    pub(crate) bytes: [u8; 8192],
    /// Bytes before this index are consumed.
    pub(crate) at: usize,
    /// Bytes from this index on were not read.
    pub(crate) len: usize,
    ghost in_range: { at ≤ len },
    ghost within: { len ≤ 8192 },
}

impl Chunk {
    /// An empty buffer.
    pub fn new() -> Chunk
        ensures { (result.at ≡ 0) × (result.len ≡ 0) }
    {
        Chunk {
            bytes: [0; 8192],
            at: 0,
            len: 0,
        }
    }

    /// The bytes that were read and not consumed.
    pub(crate) fn unread(&self) -> &[u8]
        ensures { result.now ≡ drop self.now.at (take self.now.len self.now.bytes) }
    {
        &self.bytes[self.at..self.len]
    }

    /// Consumes the next `count` bytes.
    pub(crate) fn advance(&mut self, count: usize)
        requires { count ≤ length (drop self.old.at (take self.old.len self.old.bytes)) }
        ensures { drop self.new.at (take self.new.len self.new.bytes) ≡ drop count (drop self.old.at (take self.old.len self.old.bytes)) }
    {
        self.at += count;
    }
}
