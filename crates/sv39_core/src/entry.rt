//! Page-table entries.
ghost use Rattle.std.specs.Prelude.{⊤, ℕ, ◌≡◌, ◌==◌, ◌&&◌, ◌||◌};
ghost use Rattle.std.specs.Prelude.{not, ◌+◌, ◌-◌, ◌/◌, ◌^◌, ◌<◌};
ghost use Rattle.std.specs.Prelude.{◌≤◌, [], ◌∷◌, if◌then◌else◌, Some, None};
ghost use Rattle.std.specs.Prelude.{IfSome, MatchOption, option_map, codes};
ghost use Rattle.std.specs.Int.RustNames.{bit_and};
ghost use Rattle.xk_base.specs.declared.access.Access.TheVariants.{Fetch, Load, Store};
ghost use Rattle.xk_base.specs.declared.limits.TheConstants.{FRAMES_MAX};
ghost use Rattle.sv39_core.specs.Sv39.{allowed, entry_of, entry_permits, flag, given};
ghost use Rattle.sv39_core.specs.Sv39.{is_in_ram, is_usable, page_number, permits, rights_of};
ghost use Rattle.sv39_core.specs.Sv39.{table_of, bit_if, leaf_word, table_word};

use bitflags::{Flag, Flags, bitflag_items};
use std::marker::Model;
use xk_base::limits::{FRAMES_MAX, PAGE_BYTES, RAM_BASE};
use xk_base::{Access, Frame, Perm, Rights};

/// The bits of an entry below its page number.
#[derive(Clone, Copy)]
pub(crate) struct PteFlags(u64);

bitflag_items! {
    impl PteFlags: u64 {
        const VALID = 1;
        const READ = 2;
        const WRITE = 4;
        const EXECUTE = 8;
        const USER = 16;
        const GLOBAL = 32;
        const ACCESSED = 64;
        const DIRTY = 128;
    }
}

impl Flags for PteFlags {
    type Bits = u64;

    ghost exact = { ⊤ };

    ghost table = { (codes "VALID", 1) ∷ (codes "READ", 2) ∷ (codes "WRITE", 4) ∷ (codes "EXECUTE", 8)
        ∷ (codes "USER", 16) ∷ (codes "GLOBAL", 32) ∷ (codes "ACCESSED", 64) ∷ (codes "DIRTY", 128) ∷ [] };

    ghost set_of = { λ p. p.0 };

    fn flags<'a>() -> &'a [Flag<PteFlags>] {
        PteFlags::FLAGS
    }

    fn bits(&self) -> u64 {
        self.0
    }

    fn from_bits_retain(bits: u64) -> PteFlags {
        PteFlags(bits)
    }
}

/// What an entry says.
#[derive(Clone, Copy)]
pub enum Entry {
    /// Nothing: a walk that comes here faults.
    Invalid,
    /// The walk goes on in the table in this frame.
    Table(Frame),
    /// A page: its frame and its rights, and whether A and D are set.
    Leaf(Frame, Perm, bool, bool),
}

/// The frame of a page, and the kinds of access by which user code reaches it.
#[derive(Clone, Copy)]
pub struct Reached {
    pub frame: Frame,
    pub fetch: bool,
    pub load: bool,
    pub store: bool,
}

/// An entry of a page table, as its 64 bits.
#[derive(Clone, Copy)]
pub struct Pte {
    word: u64,
}

impl Model for Pte {
    ghost use Rattle.std.specs.Prelude.{ℕ};

    ghost Value = { ℕ };

    ghost view = { λ p. p.word };

    ghost inverse = { λ w. record { word = w } };
}

/// The physical page of frame 0.
const FIRST_PAGE: u64 = RAM_BASE / PAGE_BYTES;

fn bits_if(set: bool, flags: PteFlags) -> u64
    requires { flags.0 ≤ 128 }
    ensures value { result ≡ bit_if set flags.0 }
    ensures small { result ≤ 128 }
{
    if set { flags.bits() } else { 0 }
}

impl Pte {
    /// The entry of these 64 bits.
    pub fn from_bits(bits: u64) -> Pte
        ensures { result ≡ bits }
    {
        Pte { word: bits }
    }

    /// Its 64 bits.
    pub fn bits(self) -> u64
        ensures { result ≡ self }
    {
        self.word
    }

    /// The entry that leads to the table in a frame: V alone is set.
    pub fn table(frame: Frame) -> Pte
        ensures { result ≡ table_word frame }
    {
        Pte {
            word: ((FIRST_PAGE + u64::from(frame.number())) << 10) + PteFlags::VALID.bits(),
        }
    }

    /// The leaf of a page in a frame, with V, A and D set.
    pub fn leaf(frame: Frame, perm: Perm) -> Pte
        ensures { result ≡ leaf_word frame perm }
    {
        let rights = perm.rights();
        let flags = PteFlags::VALID.bits()
            + bits_if(rights.read, PteFlags::READ)
            + bits_if(rights.write, PteFlags::WRITE)
            + bits_if(rights.execute, PteFlags::EXECUTE)
            + bits_if(rights.user, PteFlags::USER)
            + PteFlags::ACCESSED.bits()
            + PteFlags::DIRTY.bits();
        let page = FIRST_PAGE + u64::from(frame.number());
        Pte {
            word: (page << 10) + flags,
        }
    }

    fn has(self, flags: PteFlags) -> bool
        ensures { result ≡ (bit_and self flags.0 == flags.0) }
    {
        PteFlags::from_bits_retain(self.bits()).contains(flags)
    }

    fn rights(self) -> Rights
        ensures { result ≡ rights_of self }
    {
        Rights {
            read: self.has(PteFlags::READ),
            write: self.has(PteFlags::WRITE),
            execute: self.has(PteFlags::EXECUTE),
            user: self.has(PteFlags::USER),
        }
    }

    /// Whether bits 63 to 54 are 0, and the page is one of RAM's frames. Where one of these bits is set, or the
    /// page lies below RAM, the difference is far greater than any number of frames: one comparison serves. The
    /// bits below the page number decide nothing, so they stay where they are.
    fn is_in_ram(self, frames: u32) -> bool
        requires { frames ≤ FRAMES_MAX }
        ensures { result ≡ is_in_ram frames self }
    {
        self.bits().wrapping_sub(FIRST_PAGE << 10) < u64::from(frames) << 10
    }

    /// The frame of its page, where that is one of RAM's and bits 63 to 54 are 0. RAM's first page is a multiple
    /// of the greatest number of frames, so the low bits of the page's number are the frame's.
    fn frame(self) -> Frame
        requires first { 0x80000 ≤ self / 2 ^ 10 }
        requires last { self / 2 ^ 10 < 0x80000 + FRAMES_MAX }
        ensures { result ≡ page_number self - 0x80000 }
    {
        Frame::new((self.bits() >> 10) as u32 % FRAMES_MAX)
    }

    fn is_usable(self, frames: u32) -> bool
        requires { frames ≤ FRAMES_MAX }
        ensures { result ≡ is_usable frames self }
    {
        let valid = self.has(PteFlags::VALID);
        let read = self.has(PteFlags::READ);
        let write = self.has(PteFlags::WRITE);
        valid & (!write | read) & self.is_in_ram(frames)
    }

    /// What the entry says, where RAM has so many frames.
    pub(crate) fn entry(self, frames: u32) -> Entry
        requires { frames ≤ FRAMES_MAX }
        ensures { result ≡ entry_of frames self }
    {
        if !self.is_usable(frames) {
            return Entry::Invalid;
        }
        let frame = self.frame();
        let rights = self.rights();
        let leaf = rights.read | rights.execute;
        if leaf {
            let accessed = self.has(PteFlags::ACCESSED);
            let dirty = self.has(PteFlags::DIRTY);
            return Entry::Leaf(frame, Perm::new(rights), accessed, dirty);
        }
        Entry::Table(frame)
    }

    /// Whether the bits below the page number say that the walk goes on: V is set, and R, W and X are clear.
    fn leads_on(self) -> bool
        ensures { result ≡ (flag self 0 && not (flag self 1) && not (flag self 2) && not (flag self 3)) }
    {
        self.has(PteFlags::VALID)
            & !self.has(PteFlags::READ)
            & !self.has(PteFlags::WRITE)
            & !self.has(PteFlags::EXECUTE)
    }

    /// The table that the entry leads to, where RAM has so many frames; None where it leads to none.
    pub(crate) fn next_table(self, frames: u32) -> Option<Frame>
        requires { frames ≤ FRAMES_MAX }
        ensures table { result ≡ table_of (entry_of frames self) }
        ensures inside { IfSome result (λ f. f < frames) }
    {
        if !self.leads_on() {
            return None;
        }
        if !self.is_in_ram(frames) {
            return None;
        }
        Some(self.frame())
    }

    /// Whether the bits below the page number let user code make an access: its rights give it, A is set, and for a
    /// store D too.
    fn permits(self, access: Access) -> bool
        ensures { result
            ≡ (flag self 0 && (not (flag self 2) || flag self 1)
            && permits access (given (rights_of self) (flag self 6) (flag self 7))) }
    {
        let granted = self.has_right(access) & self.has(PteFlags::ACCESSED);
        match access {
            Access::Store => granted & self.has(PteFlags::DIRTY),
            _ => granted,
        }
    }

    /// The frame that user code's access reaches by the entry as the last of a walk, where RAM has so many
    /// frames; None where it is a page fault.
    pub(crate) fn reached(self, access: Access, frames: u32) -> Option<Frame>
        requires { frames ≤ FRAMES_MAX }
        ensures allowed { (offset : ℕ)
            → allowed access (entry_of frames self) offset ≡ option_map (λ f. (f, offset)) result }
        ensures inside { IfSome result (λ f. f < frames) }
    {
        if !self.permits(access) {
            return None;
        }
        if !self.is_in_ram(frames) {
            return None;
        }
        Some(self.frame())
    }

    /// Whether the bits below the page number give user code the right to make an access: the entry is valid and has
    /// no W without R, and its rights permit it. A and D decide nothing here.
    fn has_right(self, access: Access) -> bool
        ensures { result ≡ (flag self 0 && (not (flag self 2) || flag self 1) && permits access (rights_of self)) }
    {
        let rights = self.rights();
        let of_user = self.has(PteFlags::VALID) & rights.user;
        match access {
            Access::Fetch => of_user & rights.execute & (!rights.write | rights.read),
            Access::Load => of_user & rights.read,
            Access::Store => of_user & rights.read & rights.write,
        }
    }

    /// Whether the entry leads to a page whose rights permit user code an access, where RAM has so many frames.
    #[tactic(auto, using(crate::proofs::Words::permits_entry_of))]
    pub(crate) fn grants(self, access: Access, frames: u32) -> bool
        requires { frames ≤ FRAMES_MAX }
        ensures { result ≡ entry_permits access (entry_of frames self) }
    {
        self.has_right(access) & self.is_in_ram(frames)
    }

    /// What user code reaches by the entry as the last of a walk, where RAM has so many frames; None where the
    /// page isn't one of RAM's.
    #[tactic(auto, using(crate::proofs::Words::allowed_outside, crate::proofs::Words::allowed_inside))]
    pub(crate) fn page(self, frames: u32) -> Option<Reached>
        requires { frames ≤ FRAMES_MAX }
        ensures fetch { (offset : ℕ)
            → MatchOption result (allowed Fetch (entry_of frames self) offset ≡ None) (λ r.
            allowed Fetch (entry_of frames self) offset
            ≡ (if r.fetch then Some (r.frame, offset) else None)) }
        ensures load { (offset : ℕ)
            → MatchOption result (allowed Load (entry_of frames self) offset ≡ None) (λ r.
            allowed Load (entry_of frames self) offset
            ≡ (if r.load then Some (r.frame, offset) else None)) }
        ensures store { (offset : ℕ)
            → MatchOption result (allowed Store (entry_of frames self) offset ≡ None) (λ r.
            allowed Store (entry_of frames self) offset
            ≡ (if r.store then Some (r.frame, offset) else None)) }
        ensures inside { IfSome result (λ r. r.frame < frames) }
    {
        if !self.is_in_ram(frames) {
            return None;
        }
        Some(Reached {
            frame: self.frame(),
            fetch: self.permits(Access::Fetch),
            load: self.permits(Access::Load),
            store: self.permits(Access::Store),
        })
    }
}
