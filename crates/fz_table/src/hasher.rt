//! The hash of an address.

ghost use Rattle.std.specs.Prelude.{◌≡◌};
ghost use Rattle.fz_table.specs.Hashed.{hash_in_row, hash_of, written};

use std::hash::{BuildHasher, Hasher};

/// An odd number near 2^64 divided by the golden ratio, by whose multiples numbers are scattered.
const SCATTER: u64 = 0x9E37_79B9_7F4A_7C15;

/// Hashes addresses so that successive addresses are in the same or neighbouring groups of a map.
///
/// Four addresses share a group of the map, where their lowest bits distinguish them, and the next four share a neighbouring group. A full map has nine
/// addresses for each group, and a group has room for twelve. So when successive addresses go round all groups, each group gets eight or twelve; if eight
/// shared a group, some would get sixteen. Higher bits are mixed in, so that addresses at any equal distance are distributed over all groups.
///
/// Addresses of objects in memory are multiples of 8. For these there is [`AddressHasher::of_words`], by which their eighths are successive.
#[derive(Clone, Copy)]
pub struct AddressHasher {
    word: u64,
    of_words: bool,
}

impl AddressHasher {
    /// A hasher without input.
    pub fn new() -> AddressHasher {
        AddressHasher {
            word: 0,
            of_words: false,
        }
    }

    /// A hasher without input, for addresses that are multiples of 8. It scatters all other addresses over the map.
    pub fn of_words() -> AddressHasher {
        AddressHasher {
            word: 0,
            of_words: true,
        }
    }
}

/// The hash of an address that comes after others in a row.
#[inline(always)]
fn hash_in_row(word: u64) -> u64
    ensures { result ≡ hash_in_row word }
{
    let mixed = word ^ (word >> 7) ^ (word >> 18);
    (mixed >> 2) ^ (mixed << 24)
}

impl Hasher for AddressHasher {
    ghost write = { written };

    ghost finish = { hash_of };

    #[inline(always)]
    fn finish(&self) -> u64 {
        if !self.of_words {
            return hash_in_row(self.word);
        }
        if self.word % 8 == 0 {
            return hash_in_row(self.word / 8);
        }
        hash_in_row(self.word.wrapping_mul(SCATTER) >> 20)
    }

    /// Takes the eight bytes of an address, and ignores everything else.
    #[inline(always)]
    fn write(&mut self, bytes: &[u8]) {
        if bytes.len() != 8 {
            return;
        }
        self.word = u64::from_le_bytes([
            bytes[0], bytes[1], bytes[2], bytes[3], bytes[4], bytes[5], bytes[6], bytes[7],
        ]);
    }
}

impl BuildHasher for AddressHasher {
    type Hasher = AddressHasher;

    ghost build_hasher = { λ h. h };

    fn build_hasher(&self) -> AddressHasher {
        *self
    }
}
