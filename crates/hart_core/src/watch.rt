//! Addresses of instructions, and bytes of memory, that are watched.
ghost use Rattle.std.specs.Prelude.{◌≡◌, ◌≢◌, ℕ, ◌/◌, ◌%◌, ◌-◌, ◌&&◌, true, false, length, get_or, nat_le, nat_lt};
ghost use Rattle.rv64i_core.specs.Memory.{bytes_of_width};
ghost use Rattle.hart_core.specs.CodePages.{index_at};
ghost use Rattle.hart_core.specs.Watch.{is_one, has_one_among, AreMarked, AreStops};

use crate::fast::blocks::index_at;
use crate::fast::places::Places;
use crate::fast::stops::Stops;
use rv64i_core::Width;
use xk_base::limits::PAGE_BYTES;

/// Addresses at which no instruction is to be made, and bytes to which none is to store.
#[derive(Drop)]
pub struct Watch<'a> {
    addresses: &'a [u64],
    bytes: &'a [u64],
    // The indices of the addresses, and the pages in which the bytes lie.
    stops: Stops,
    pages: Places,
    ghost stops_are: { AreStops stops.marks addresses.now },
    ghost pages_are: { AreMarked 4096 pages.marks bytes.now },
}

// Whether a byte is one of so many from an address on.
#[inline(always)]
fn is_among(byte: u64, own: u64, count: u64) -> bool
    ensures { result ≡ (nat_le own byte && nat_lt (byte - own) count) }
{
    if byte < own {
        return false;
    }
    byte - own < count
}

impl<'a> Watch<'a> {
    /// Watches some addresses and some bytes.
    pub fn over(addresses: &'a [u64], bytes: &'a [u64]) -> Watch<'a>
        ensures addresses { result.addresses.now ≡ addresses.now }
        ensures bytes { result.bytes.now ≡ bytes.now }
    {
        Watch {
            addresses,
            bytes,
            stops: Stops::of(addresses),
            pages: Places::of(bytes, PAGE_BYTES),
        }
    }

    /// The addresses that are watched.
    pub fn addresses(&self) -> &[u64]
        ensures { result.now ≡ self.now.addresses.now }
    {
        self.addresses
    }

    /// The bytes that are watched, by their addresses.
    pub fn bytes(&self) -> &[u64]
        ensures { result.now ≡ self.now.bytes.now }
    {
        self.bytes
    }

    // Whether an address is watched.
    #[inline(always)]
    pub(crate) fn has_address(&self, address: u64) -> bool
        ensures { result ≡ is_one self.now.addresses.now address }
    {
        if !self.is_marked(address) {
            return false;
        }
        self.addresses.contains(&address)
    }

    // Marks for indices: if none stands at the index of an address, it isn't watched.
    #[inline(always)]
    pub(crate) fn marks(&self) -> &[bool]
        ensures value { result.now ≡ self.now.stops.marks }
        ensures long { length result.now ≡ 4096 }
        ensures stops { AreStops self.now.stops.marks self.now.addresses.now }
    {
        self.stops.marks()
    }

    // Whether a mark stands at the index of an address.
    #[inline(always)]
    pub(crate) fn is_marked(&self, address: u64) -> bool
        ensures { result ≡ get_or self.now.stops.marks (index_at address % 4096) false }
    {
        self.stops.has(index_at(address))
    }

    // Whether a page in this place, modulo 64, may have a watched byte.
    #[inline(always)]
    pub(crate) fn may_have_byte_at(&self, place: u64) -> bool
        ensures { result ≡ false → (b : ℕ) → is_one self.now.bytes.now b ≡ true → b / 4096 % 64 ≢ place % 64 }
    {
        self.pages.is_marked(place)
    }

    // Whether a byte is watched that an aligned store puts.
    #[inline(always)]
    pub(crate) fn has_byte_of(&self, address: u64, width: Width) -> bool
        requires even { address % bytes_of_width width ≡ 0 }
        ensures { result ≡ has_one_among self.now.bytes.now address (bytes_of_width width) }
    {
        if !self.pages.is_marked(address / PAGE_BYTES) {
            return false;
        }
        let count = width.bytes() as u64;
        self.bytes
            .iter()
            .any(|byte| is_among(*byte, address, count))
    }
}
