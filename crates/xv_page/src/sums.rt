//! The sum of bytes, by which a record names a file.
ghost use Rattle.std.specs.Prelude.{◌≡◌};
ghost use Rattle.sha2.specs.Sha256.{sha256};

use xv_record::sum_of;

/// Tells the SHA-256 of bytes (FIPS 180-4).
#[inline(never)]
pub fn xv_page_sum(bytes: &[u8], sum: &mut [u8; 32])
    ensures { sum.new ≡ sha256 bytes.now }
{
    *sum = sum_of(bytes);
}
