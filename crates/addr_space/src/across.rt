//! Bytes that lie across pages: whole pages at a time, one walk for each.
#![tactic(auto)]

ghost use Rattle.std.specs.Prelude.{◌≡◌, ℕ, ◌+◌, ◌*◌, ◌/◌, ◌%◌, ◌-◌, ◌≤◌};
ghost use Rattle.std.specs.Prelude.{◌<◌, ◌^◌, length, Some, None, IfSome, IfNone};
ghost use Rattle.std.specs.FinMap.{get};
ghost use Rattle.xk_base.specs.Image.{Page};
ghost use Rattle.xk_base.specs.Frames.{copies};
ghost use Rattle.phys_ram.specs.Ram.{frame_at};
ghost use Rattle.sv39_core.specs.Sv39.{page_entry};
ghost use Rattle.sv39_core.specs.Tree.{frame_of};
ghost use Rattle.xk_base.specs.Bytes.{HasPage, IsMapped, image_bytes, write_image};
ghost use Rattle.frame_list.specs.declared.Pool.{Pool};
ghost use Rattle.addr_space.specs.Space.{image_of, frames_of, Belongs, Changed, IsSpace, SparesOthers};
ghost use Rattle.addr_space.specs.InPlace.{WrittenInPlace};

use crate::{Space, entry_of_page};
use phys_ram::Ram;
use sv39_core::Entry;
use xk_base::limits::FRAME_BYTES;
use xk_base::{Frame, FrameBytes, Vpn, page_offset};

impl Space {
    /// The bytes of a page; none where it isn't there.
    pub fn page_bytes<'a>(&self, ram: &'a Ram, vpn: Vpn) -> Option<&'a FrameBytes>
        requires { IsSpace ram.now self.now }
        ensures there { IfSome result (λ bytes.
            (page : Page) × (get (image_of ram.now self.now).pages vpn ≡ Some page)
            × (bytes.now ≡ page.bytes)) }
        ensures none { IfNone result (get (image_of ram.now self.now).pages vpn ≡ None) }
    {
        let Entry::Leaf(frame, ..) = entry_of_page(ram, self.root, vpn.number() as usize) else {
            return None;
        };
        Some(ram.frame(frame))
    }

    /// The frame of a page, which is one of the space's own; none where the page isn't there.
    pub fn page_frame(&self, ram: &Ram, vpn: Vpn) -> Option<Frame>
        requires { IsSpace ram.now self.now }
        ensures frame { result ≡ frame_of (page_entry ram.now self.now.root vpn) }
        ensures owned { IfSome result (λ f. (f < length ram.now) × (1 ≤ copies f (frames_of ram.now self.now))) }
        ensures there { IfSome result (λ f.
            (page : Page) × (get (image_of ram.now self.now).pages vpn ≡ Some page)
            × (page.bytes ≡ frame_at ram.now f)) }
        ensures none { IfNone result (get (image_of ram.now self.now).pages vpn ≡ None) }
    {
        let Entry::Leaf(frame, ..) = entry_of_page(ram, self.root, vpn.number() as usize) else {
            return None;
        };
        Some(frame)
    }

    /// Reads bytes of a page from place `at` on, as many as `out` holds, within the page: zeros where the
    /// page isn't there.
    fn read_part(&self, ram: &Ram, vpn: Vpn, at: usize, out: &mut [u8])
        requires whole { IsSpace ram.now self.now }
        requires inside { at < 4096 }
        requires fits { at + length out.old ≤ 4096 }
        ensures { out.new ≡ image_bytes (image_of ram.now self.now) (4096 * vpn + at) (length out.old) }
    {
        let count = out.len();
        match self.page_bytes(ram, vpn) {
            Some(page) => out.copy_from_slice(&page[at..at + count]),
            None => out.fill(0),
        }
    }

    /// Reads the bytes from an address on, as many as `out` holds, whatever the pages' rights: zeros where
    /// no page is there. All of them lie below the last page's end.
    pub fn read_across(&self, ram: &Ram, address: u64, out: &mut [u8])
        requires whole { IsSpace ram.now self.now }
        requires inside { (k : ℕ) → k < length out.old → address + k < 2 ^ 38 }
        ensures { out.new ≡ image_bytes (image_of ram.now self.now) address (length out.old) }
    {
        let mut done = 0;
        'parts: while done < out.len() {
            let place = address + done as u64;
            let at = page_offset(place);
            let part = (FRAME_BYTES - at).min(out.len() - done);
            let vpn = Vpn::of_address(place);
            self.read_part(ram, vpn, at, &mut out[done..done + part]);
            done += part;
        }
    }

    /// Writes bytes from an address on, each of which lies in a page that is there, whatever the pages'
    /// rights. All other bytes stay, and so do all rights, the size, and the frames and tables of the
    /// space.
    pub fn write_across(&self, ram: &mut Ram, address: u64, bytes: &[u8])
        requires whole { IsSpace ram.old self.now }
        requires there { IsMapped (image_of ram.old self.now) address (length bytes.now) }
        ensures image { image_of ram.new self.now ≡ write_image (image_of ram.old self.now) address bytes.now }
        ensures in_place { WrittenInPlace ram.old ram.new self.now }
        ensures changed { (pool : Pool) → Belongs pool ram.old self.now
            → Changed pool ram.old self.now pool ram.new self.now }
        ensures belongs { (pool : Pool) → Belongs pool ram.old self.now → Belongs pool ram.new self.now }
        ensures others { (pool : Pool) → Belongs pool ram.old self.now
            → SparesOthers pool ram.old (frames_of ram.old self.now) ram.new }
    {
        let mut done = 0;
        'parts: while done < bytes.len() {
            let place = address + done as u64;
            let at = page_offset(place);
            let part = (FRAME_BYTES - at).min(bytes.len() - done);
            let vpn = Vpn::of_address(place);
            self.write_page(ram, vpn, at, &bytes[done..done + part]);
            done += part;
        }
    }
}
