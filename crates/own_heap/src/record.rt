//! Records, and the addresses by which finalizers name them.

ghost use Rattle.std.specs.Prelude.{◌≡◌, ◌+◌, ◌<◌, Option};
ghost use Rattle.own_heap.specs.Outside.{place_of_link};
ghost use Rattle.own_heap.specs.Records.{address_of, cleared, place_of, word_of};

use fz_model::{Addr, Word};

/// The number of fields of a record.
pub const FIELDS: usize = 4;

/// The distance between the addresses of records. The fields of a record are at the first `FIELDS` numbers from its address on. The numbers after them point to
/// no record: they represent hidden references.
pub const SPACING: u64 = 8;

/// The first number of a link that lies in no record. All addresses of fields are smaller.
pub const OUTSIDE: Addr = 0x8000_0000_0000_0000;

/// Names a record by its index in the heap. Once the record is swept, `make` may give the index to another record, and the id then names that one. So use an
/// id only while roots reach its record, or give records births.
#[derive(Clone, Copy, Debug, PartialEq, Eq)]
pub struct RecordId {
    pub(crate) place: u32,
}

/// The content of a field.
#[derive(Clone, Copy, Debug, PartialEq, Eq)]
pub enum Field {
    Nothing,
    /// A number, which points to nothing, and which no collection changes.
    Number(u64),
    /// A reference to a record, which retains it.
    Reference(RecordId),
    /// A reference that the marker doesn't follow: the target of a link, or the value of an ephemeron. If the field isn't an ephemeron, nothing retains the
    /// record.
    Hidden(RecordId),
}

/// A record in the heap.
#[derive(Clone, Copy, Debug, PartialEq, Eq)]
pub struct Record {
    pub fields: [Field; FIELDS],
}

impl RecordId {
    /// The record's address for finalizers, which is never 0.
    pub fn address(self) -> Addr
        ensures { result ≡ address_of self.place }
    {
        (u64::from(self.place) + 1) * SPACING
    }

    /// The address of one of its fields, which is used as the word of a link.
    pub fn word(self, field: usize) -> Addr
        requires { field < FIELDS }
        ensures { result ≡ address_of self.place + field }
    {
        self.address() + field as u64
    }
}

impl Field {
    /// The address of the record to which the field refers, or the number past the fields of the record that it hides, or 0.
    pub(crate) fn word(self) -> Word
        ensures { result ≡ word_of self }
    {
        match self {
            Field::Reference(id) => id.address(),
            Field::Hidden(id) => id.address() + FIELDS as u64,
            Field::Nothing | Field::Number(_) => 0,
        }
    }

    /// What is left of the field once it is cleared: nothing, or its number if it is one.
    pub(crate) fn cleared(self) -> Field
        ensures { result ≡ cleared self }
    {
        match self {
            Field::Number(number) => Field::Number(number),
            Field::Nothing | Field::Reference(_) | Field::Hidden(_) => Field::Nothing,
        }
    }
}

/// The address of the field in which a link lies, if it lies in a record.
pub(crate) fn place_of_link(word: Addr) -> Option<Addr>
    ensures { result ≡ place_of_link word }
{
    if word < OUTSIDE { Some(word) } else { None }
}

/// The index of the record with this address, if it is the address of one.
#[tactic(auto, unfolding(crate::specs::Records::place_of))]
pub(crate) fn place_of(address: Addr) -> Option<usize>
    ensures { result ≡ place_of address }
{
    if address % SPACING == 0 && SPACING <= address {
        Some((address / SPACING) as usize - 1)
    } else {
        None
    }
}
