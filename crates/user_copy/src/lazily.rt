//! Copies from a process that has absent pages: below its size, and not there. They read as zeros, and none is
//! added. Where no page is absent, each of these calls is the one of the same name without `_lazily`.
#![tactic(auto)]

ghost use Rattle.std.specs.Prelude.{◌≡◌, ℕ, ◌<◌, ◌++◌, length, drop};
ghost use Rattle.std.specs.Prelude.{true, false, Some, None, IfOk, IfErr};
ghost use Rattle.xk_base.specs.Bytes.{image_bytes};
ghost use Rattle.xk_base.specs.Words.{le};
ghost use Rattle.xk_base.specs.declared.access.Access.TheVariants.{Load};
ghost use Rattle.addr_space.specs.Absent.{is_absent, whole};
ghost use Rattle.addr_space.specs.Space.{image_of, IsSpace};
ghost use Rattle.user_copy.specs.Reach.{reaches, text_length};

use crate::{AbsentPages, reaches, text_end};
use addr_space::Space;
use byteorder::{ByteOrder, LittleEndian};
use phys_ram::Ram;
use xk_base::{Access, BadAddress};

/// Tests a range of a process's memory as [`check_range`](crate::check_range) does, where absent pages are fine: user
/// code may read and write them once they are touched.
///
/// Errors: `BadAddress` exactly where one of the bytes lies in no absent page, and user code may not make
/// the access to it.
pub fn check_range_lazily(
    space: &Space,
    ram: &Ram,
    address: u64,
    len: usize,
    access: Access,
) -> Result<(), BadAddress>
    requires { IsSpace ram.now space.now }
    ensures fine { IfOk result (λ _. reaches access (whole (image_of ram.now space.now)) address len ≡ true) }
    ensures refused { IfErr result (λ _. reaches access (whole (image_of ram.now space.now)) address len ≡ false) }
{
    if reaches(space, ram, address, len, access, AbsentPages::Zeros) {
        Ok(())
    } else {
        Err(BadAddress)
    }
}

/// Copies bytes from a process as [`copy_in`](crate::copy_in) does, and reads absent pages as zeros. It adds none.
///
/// Errors: `BadAddress` exactly where one of the bytes lies in no absent page, and the process may not read
/// it; then `out` is as it was.
pub fn copy_in_lazily(
    space: &Space,
    ram: &Ram,
    address: u64,
    out: &mut [u8],
) -> Result<(), BadAddress>
    requires { IsSpace ram.now space.now }
    ensures fine { IfOk result (λ _.
        reaches Load (whole (image_of ram.now space.now)) address (length out.old) ≡ true) }
    ensures copied { IfOk result (λ _.
        out.new ≡ image_bytes (whole (image_of ram.now space.now)) address (length out.old)) }
    ensures refused { IfErr result (λ _.
        (reaches Load (whole (image_of ram.now space.now)) address (length out.old) ≡ false)
        × (out.new ≡ out.old)) }
{
    check_range_lazily(space, ram, address, out.len(), Access::Load)?;
    space.read_across(ram, address, out);
    Ok(())
}

/// The number in eight bytes of a process as [`fetch_u64`](crate::fetch_u64) tells it, with absent pages read as zeros.
///
/// Errors: `BadAddress` exactly where one of the bytes lies in no absent page, and the process may not read
/// it.
pub fn fetch_u64_lazily(space: &Space, ram: &Ram, address: u64) -> Result<u64, BadAddress>
    requires { IsSpace ram.now space.now }
    ensures fine { IfOk result (λ _. reaches Load (whole (image_of ram.now space.now)) address 8 ≡ true) }
    ensures number { IfOk result (λ n. n ≡ le (image_bytes (whole (image_of ram.now space.now)) address 8)) }
    ensures refused { IfErr result (λ _. reaches Load (whole (image_of ram.now space.now)) address 8 ≡ false) }
{
    let mut bytes = [0; 8];
    copy_in_lazily(space, ram, address, &mut bytes)?;
    Ok(LittleEndian::read_u64(&bytes))
}

/// Copies a text from a process as [`fetch_text`](crate::fetch_text) does, and reads absent pages as zeros. So a text
/// ends where an absent page begins.
///
/// Errors: `BadAddress` exactly where no zero byte is among so many, or one of the bytes up to it lies in
/// no absent page and the process may not read it; then `text` is as it was.
pub fn fetch_text_lazily(
    space: &Space,
    ram: &Ram,
    address: u64,
    text: &mut [u8],
) -> Result<usize, BadAddress>
    requires { IsSpace ram.now space.now }
    ensures found { IfOk result (λ n.
        text_length (whole (image_of ram.now space.now)) address (length text.old) ≡ Some n) }
    ensures short { IfOk result (λ n. n < length text.old) }
    ensures copied { IfOk result (λ n.
        text.new ≡ image_bytes (whole (image_of ram.now space.now)) address n ++ drop n text.old) }
    ensures refused { IfErr result (λ _.
        (text_length (whole (image_of ram.now space.now)) address (length text.old) ≡ None)
        × (text.new ≡ text.old)) }
{
    let Some(count) = text_end(space, ram, address, text.len(), AbsentPages::Zeros) else {
        return Err(BadAddress);
    };
    space.read_across(ram, address, &mut text[..count]);
    Ok(count)
}

/// The law of present pages: where no page is absent, what these calls take the image for is the image itself. It
/// does nothing.
pub fn law_of_present_pages(space: &Space, ram: &Ram)
    requires { IsSpace ram.now space.now }
    ensures { ((v : ℕ) → is_absent (image_of ram.now space.now) v ≡ false)
        → whole (image_of ram.now space.now) ≡ image_of ram.now space.now }
{}
