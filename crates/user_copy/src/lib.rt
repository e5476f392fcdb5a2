//! Checked copies between the kernel and a process's memory.
//!
//! The kernel reaches a byte for a process only where the process itself may: a copy from it needs the
//! page's bits U and R, a copy to it U and W (RISC-V Privileged ISA, Sv39). A range is tested whole
//! before the first byte moves: where one byte can't be reached so, or the range ends past the last
//! page, and so also where it ends past 2^64, the call answers `BadAddress` and nothing is changed. A
//! range of no bytes is always fine, whatever its address.
#![tactic(auto)]

ghost use Rattle.std.specs.Prelude.{◌≡◌, ◌≢◌, ℕ, ◌+◌, ◌*◌, ◌/◌, ◌%◌, ◌^◌};
ghost use Rattle.std.specs.Prelude.{◌<◌, ◌≤◌, ◌++◌, length, drop, true, false, slice_index};
ghost use Rattle.std.specs.Prelude.{option_map, Some, None, IfOk, IfErr, IfSome, IfNone};
ghost use Rattle.xk_base.specs.Bytes.{image_bytes, write_image};
ghost use Rattle.std.specs.FinMap.{get};
ghost use Rattle.xk_base.specs.Words.{le};
ghost use Rattle.xk_base.specs.declared.access.Access.TheVariants.{Load, Store};
ghost use Rattle.frame_list.specs.declared.Pool.{Pool};
ghost use Rattle.addr_space.specs.Space.{image_of, frames_of, Belongs, Changed, IsSpace, SparesOthers};
ghost use Rattle.addr_space.specs.InPlace.{WrittenInPlace};
ghost use Rattle.addr_space.specs.Changes.{perm_of_page};
ghost use Rattle.user_copy.specs.Reach.{allows, image_seen, reaches, text_length};

use addr_space::Space;
use byteorder::{ByteOrder, LittleEndian};
use phys_ram::Ram;
use xk_base::limits::{ADDRESS_END, FRAME_BYTES};
use xk_base::{Access, BadAddress, Perm, Vpn, page_offset};

mod fast;
mod lazily;

pub use fast::pipes::{copy_from_pipe, push_to_pipe};
pub use lazily::{
    check_range_lazily, copy_in_lazily, fetch_text_lazily, fetch_u64_lazily, law_of_present_pages,
};

/// Where a byte lies: its page, and how far behind the page's first byte.
#[derive(Clone, Copy)]
struct Place {
    page: Vpn,
    offset: usize,
}

/// The place of the byte that lies so many bytes behind an address; none behind the last page.
fn place_at(address: u64, done: usize) -> Option<Place>
    ensures there { IfSome result (λ place.
        (place.page ≡ (address + done) / 4096) × (place.offset ≡ (address + done) % 4096)) }
    ensures beyond { IfNone result (2 ^ 38 ≤ address + done) }
{
    let at = address.checked_add(done as u64)?;
    if at >= ADDRESS_END {
        return None;
    }
    Some(Place {
        page: Vpn::of_address(at),
        offset: page_offset(at),
    })
}

/// Whether user code may make an access to a page with these rights.
#[tactic(auto, using(sv39_core::proofs::Words::permits_by_right))]
fn allows(perm: Option<Perm>, access: Access) -> bool
    ensures { result ≡ allows access perm }
{
    let Some(perm) = perm else {
        return false;
    };
    let rights = perm.rights();
    rights.user && rights.allow(access)
}

/// What a copy makes of pages that are absent: below the size, and not there.
#[derive(Clone, Copy)]
enum AbsentPages {
    /// No byte of them may be reached.
    Refused,
    /// They are zeros, which user code may read and write, as they will be once they are touched.
    Zeros,
}

/// What a page allows.
fn rights_of(space: &Space, ram: &Ram, page: Vpn, absent: AbsentPages) -> Option<Perm>
    requires { IsSpace ram.now space.now }
    ensures { result ≡ option_map perm_of_page (get (image_seen absent (image_of ram.now space.now)).pages page) }
{
    match absent {
        AbsentPages::Refused => space.perm(ram, page),
        AbsentPages::Zeros => space.perm_touched(ram, page),
    }
}

/// How many pages, one after another from a page on, user code may make an access to: 0 where it may not make it to
/// the first one, and about as many as are asked for where it may make it to all.
fn pages_reached(
    space: &Space,
    ram: &Ram,
    page: Vpn,
    access: Access,
    absent: AbsentPages,
    most: usize,
) -> usize
    requires { IsSpace ram.now space.now }
    ensures few { result ≤ 512 }
    ensures each { (k : ℕ) → k < result
        → allows access
        (option_map perm_of_page (get (image_seen absent (image_of ram.now space.now)).pages (page + k)))
        ≡ true }
    ensures none { result ≡ 0
        → allows access
        (option_map perm_of_page (get (image_seen absent (image_of ram.now space.now)).pages page))
        ≡ false }
{
    let present = space.pages_permitting(ram, page, access, most);
    if present > 0 {
        return present;
    }
    usize::from(allows(rights_of(space, ram, page, absent), access))
}

/// Whether user code may make an access to each byte of a range.
fn reaches(
    space: &Space,
    ram: &Ram,
    address: u64,
    len: usize,
    access: Access,
    absent: AbsentPages,
) -> bool
    requires { IsSpace ram.now space.now }
    ensures { result ≡ reaches access (image_seen absent (image_of ram.now space.now)) address len }
{
    let mut done = 0;
    'pages: while done < len {
        let Some(place) = place_at(address, done) else {
            return false;
        };
        // As many pages as the rest of the range touches.
        let most = (len - done - 1).saturating_add(place.offset) / FRAME_BYTES + 1;
        let pages = pages_reached(space, ram, place.page, access, absent, most);
        if pages == 0 {
            return false;
        }
        done += (FRAME_BYTES * pages - place.offset).min(len - done);
    }
    true
}

/// Tests a range of a process's memory.
///
/// Errors: `BadAddress` exactly where user code may not make the access to one of its bytes.
pub fn check_range(
    space: &Space,
    ram: &Ram,
    address: u64,
    len: usize,
    access: Access,
) -> Result<(), BadAddress>
    requires { IsSpace ram.now space.now }
    ensures fine { IfOk result (λ _. reaches access (image_of ram.now space.now) address len ≡ true) }
    ensures refused { IfErr result (λ _. reaches access (image_of ram.now space.now) address len ≡ false) }
{
    if reaches(space, ram, address, len, access, AbsentPages::Refused) {
        Ok(())
    } else {
        Err(BadAddress)
    }
}

/// Copies bytes from a process, as many as `out` holds.
///
/// Errors: `BadAddress` exactly where the process may not read one of them; then `out` is as it was.
pub fn copy_in(space: &Space, ram: &Ram, address: u64, out: &mut [u8]) -> Result<(), BadAddress>
    requires { IsSpace ram.now space.now }
    ensures fine { IfOk result (λ _. reaches Load (image_of ram.now space.now) address (length out.old) ≡ true) }
    ensures copied { IfOk result (λ _. out.new ≡ image_bytes (image_of ram.now space.now) address (length out.old)) }
    ensures refused { IfErr result (λ _.
        (reaches Load (image_of ram.now space.now) address (length out.old) ≡ false)
        × (out.new ≡ out.old)) }
{
    check_range(space, ram, address, out.len(), Access::Load)?;
    space.read_across(ram, address, out);
    Ok(())
}

/// Copies bytes to a process. All other bytes of its image stay, and so do its rights, its size, its
/// frames and tables, and each other frame.
///
/// Errors: `BadAddress` exactly where the process may not write one of them; then nothing is changed.
pub fn copy_out(space: &Space, ram: &mut Ram, address: u64, bytes: &[u8]) -> Result<(), BadAddress>
    requires { IsSpace ram.old space.now }
    ensures fine { IfOk result (λ _. reaches Store (image_of ram.old space.now) address (length bytes.now) ≡ true) }
    ensures copied { IfOk result (λ _.
        image_of ram.new space.now ≡ write_image (image_of ram.old space.now) address bytes.now) }
    ensures in_place { IfOk result (λ _. WrittenInPlace ram.old ram.new space.now) }
    ensures changed { IfOk result (λ _.
        (pool : Pool) → Belongs pool ram.old space.now
        → Changed pool ram.old space.now pool ram.new space.now) }
    ensures belongs { IfOk result (λ _.
        (pool : Pool) → Belongs pool ram.old space.now → Belongs pool ram.new space.now) }
    ensures others { IfOk result (λ _.
        (pool : Pool) → Belongs pool ram.old space.now
        → SparesOthers pool ram.old (frames_of ram.old space.now) ram.new) }
    ensures refused { IfErr result (λ _.
        (reaches Store (image_of ram.old space.now) address (length bytes.now) ≡ false)
        × (ram.new ≡ ram.old)) }
{
    check_range(space, ram, address, bytes.len(), Access::Store)?;
    space.write_across(ram, address, bytes);
    Ok(())
}

/// The number in eight bytes of a process, little-endian. They may lie at any address, also across pages.
///
/// Errors: `BadAddress` exactly where the process may not read one of them.
pub fn fetch_u64(space: &Space, ram: &Ram, address: u64) -> Result<u64, BadAddress>
    requires { IsSpace ram.now space.now }
    ensures fine { IfOk result (λ _. reaches Load (image_of ram.now space.now) address 8 ≡ true) }
    ensures number { IfOk result (λ n. n ≡ le (image_bytes (image_of ram.now space.now) address 8)) }
    ensures refused { IfErr result (λ _. reaches Load (image_of ram.now space.now) address 8 ≡ false) }
{
    let mut bytes = [0; 8];
    copy_in(space, ram, address, &mut bytes)?;
    Ok(LittleEndian::read_u64(&bytes))
}

/// Copies a text from a process: all bytes from an address up to the first zero byte, which is left
/// out. The answer is their number. The zero byte must be one of the first `text.len()` bytes, so
/// that a text with its zero byte may be as long as `text`. Nothing behind the zero byte is looked at.
///
/// Errors: `BadAddress` exactly where no zero byte is among so many, or the process may not read one
/// of the bytes up to it; then `text` is as it was.
pub fn fetch_text(
    space: &Space,
    ram: &Ram,
    address: u64,
    text: &mut [u8],
) -> Result<usize, BadAddress>
    requires { IsSpace ram.now space.now }
    ensures found { IfOk result (λ n. text_length (image_of ram.now space.now) address (length text.old) ≡ Some n) }
    ensures short { IfOk result (λ n. n < length text.old) }
    ensures copied { IfOk result (λ n.
        text.new ≡ image_bytes (image_of ram.now space.now) address n ++ drop n text.old) }
    ensures refused { IfErr result (λ _.
        (text_length (image_of ram.now space.now) address (length text.old) ≡ None)
        × (text.new ≡ text.old)) }
{
    let Some(count) = text_end(space, ram, address, text.len(), AbsentPages::Refused) else {
        return Err(BadAddress);
    };
    space.read_across(ram, address, &mut text[..count]);
    Ok(count)
}

/// How many bytes of a text stand before its zero byte, which is one of the first `limit` bytes.
fn text_end(
    space: &Space,
    ram: &Ram,
    address: u64,
    limit: usize,
    absent: AbsentPages,
) -> Option<usize>
    requires { IsSpace ram.now space.now }
    ensures { result ≡ text_length (image_seen absent (image_of ram.now space.now)) address limit }
{
    let mut done = 0;
    'pages: while done < limit {
        let Some(place) = place_at(address, done) else {
            return None;
        };
        if !allows(rights_of(space, ram, place.page, absent), Access::Load) {
            return None;
        }
        let Some(page) = space.page_bytes(ram, place.page) else {
            return Some(done); // an absent page, whose bytes are 0
        };
        let part = (FRAME_BYTES - place.offset).min(limit - done);
        if let Some(end) = first_zero(&page[place.offset..place.offset + part]) {
            return Some(done + end);
        }
        done += part;
    }
    None
}

/// The place of the first zero byte.
fn first_zero(bytes: &[u8]) -> Option<usize>
    ensures found { IfSome result (λ k. (k < length bytes.now) × (slice_index bytes.now k ≡ 0)) }
    ensures first { IfSome result (λ k. (j : ℕ) → j < k → slice_index bytes.now j ≢ 0) }
    ensures none { IfNone result ((j : ℕ) → j < length bytes.now → slice_index bytes.now j ≢ 0) }
{
    bytes.iter().position(|byte| *byte == 0)
}
