//! Where the bytes of a value are read.
ghost use Rattle.std.specs.Prelude.{◌≡◌, ◌<◌, ◌^◌, IfSome};
ghost use Rattle.debug_info.specs.Spots as meant;

use crate::sight::Sight;

/// Where a value begins.
#[derive(Clone, Copy)]
pub enum Spot {
    /// At this address.
    Memory(u64),
    /// In a number of 8 bytes, the lowest first, after so many of them.
    Number(u64, u64),
}

impl Spot {
    /// So many bytes after this.
    pub fn after(self, bytes: u64) -> Spot
        ensures { result ≡ meant.after bytes self }
    {
        match self {
            Spot::Memory(address) => Spot::Memory(address.wrapping_add(bytes)),
            Spot::Number(number, from) => Spot::Number(number, from.saturating_add(bytes)),
        }
    }

    /// The byte that begins here; `None` if it isn't there.
    pub fn byte<S: Sight>(self, sight: &S) -> Option<u8>
        ensures { result ≡ meant.byte_at (S.bytes sight.now) self }
    {
        match self {
            Spot::Memory(address) => sight.byte(address),
            Spot::Number(number, from) => number.to_le_bytes().get(from as usize).copied(),
        }
    }

    /// The number in two bytes, the lower one first; `None` if one isn't there.
    fn half<S: Sight>(self, sight: &S) -> Option<u64>
        ensures value { result ≡ meant.half_at (S.bytes sight.now) self }
        ensures small { IfSome result (λ number. number < 2 ^ 16) }
    {
        let low = self.byte(sight)?;
        let high = self.after(1).byte(sight)?;
        Some(u64::from(low) + 0x100 * u64::from(high))
    }

    /// The number in four bytes.
    fn word<S: Sight>(self, sight: &S) -> Option<u64>
        ensures value { result ≡ meant.word_at (S.bytes sight.now) self }
        ensures small { IfSome result (λ number. number < 2 ^ 32) }
    {
        let low = self.half(sight)?;
        let high = self.after(2).half(sight)?;
        Some(low + 0x1_0000 * high)
    }

    /// The number in so many bytes, 4 at most.
    fn short<S: Sight>(self, sight: &S, bytes: u64) -> Option<u64>
        ensures value { result ≡ meant.short_at (S.bytes sight.now) self bytes }
        ensures small { IfSome result (λ number. number < 2 ^ 32) }
    {
        match bytes {
            0 => Some(0),
            1 => Some(u64::from(self.byte(sight)?)),
            2 => self.half(sight),
            3 => {
                let low = self.half(sight)?;
                let high = self.after(2).byte(sight)?;
                Some(low + 0x1_0000 * u64::from(high))
            }
            4 => self.word(sight),
            _ => None,
        }
    }

    /// The number in so many bytes, 8 at most, the lowest first; `None` if there are more, or one isn't there.
    pub fn number<S: Sight>(self, sight: &S, bytes: u64) -> Option<u64>
        ensures { result ≡ meant.number_at (S.bytes sight.now) self bytes }
    {
        if bytes <= 4 {
            return self.short(sight, bytes);
        }
        let low = self.word(sight)?;
        let high = self.after(4).short(sight, bytes - 4)?;
        Some(low + 0x1_0000_0000 * high)
    }
}
