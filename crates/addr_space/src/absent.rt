//! Pages that are not there: how many frames they take, and how they come.
#![tactic(auto)]

ghost use Rattle.std.specs.Prelude.{◌≡◌, ℕ, ◌+◌, ◌-◌, ◌*◌, ◌/◌, ◌^◌};
ghost use Rattle.std.specs.Prelude.{◌≤◌, ◌<◌, ◌&&◌, true, false, None, Some};
ghost use Rattle.std.specs.Prelude.{List, length, nat_lt, option_map, IfOk, IfErr};
ghost use Rattle.std.specs.FinMap.{get};
ghost use Rattle.xk_base.specs.declared.access.Rights.{Rights};
ghost use Rattle.xk_base.specs.declared.limits.TheConstants.{SIZE_LIMIT};
ghost use Rattle.xk_base.specs.Image.{price};
ghost use Rattle.frame_list.specs.declared.Pool.{Pool};
ghost use Rattle.sv39_core.specs.Sv39.{page_entry};
ghost use Rattle.sv39_core.specs.Tree.{frame_of};
ghost use Rattle.addr_space.specs.Absent.{is_absent, is_among, grown_lazily, pages_at, brought, whole};
ghost use Rattle.addr_space.specs.Changes.{filled, perm_of_page};
ghost use Rattle.addr_space.specs.Space.{image_of, frames_of, Belongs, Changed, Unchanged, IsSpace, SparesOthers};
ghost use Rattle.addr_space.specs.Space.{Affords, IsTooDear};
ghost use Rattle.addr_space.specs.Translations.{TranslationsStay};

use crate::{Space, entry_of_page, lower_table, upper_table};
use frame_list::Pool;
use phys_ram::Ram;
use sv39_core::{Entry, TABLE_ENTRIES, lower_table_end, upper_table_end};
use xk_base::limits::PAGE_BYTES;
use xk_base::{Frame, NoFrames, Perm, Vpn, page_count};

/// Pages from one number on, and below another.
#[derive(Clone, Copy)]
struct Pages {
    first: usize,
    end: usize,
}

/// The pages that begin below a size and in which one of so many bytes from an address on lies.
fn pages_below(size: u64, address: u64, len: usize) -> Pages
    requires limit { size ≤ SIZE_LIMIT }
    ensures order { result.first ≤ result.end }
    ensures few { result.end ≤ 2 ^ 26 }
    ensures inside { (v : ℕ) → result.first ≤ v → v < result.end
        → (is_among v (pages_at address len) ≡ true) × (4096 * v < size) }
    ensures before { (v : ℕ) → v < result.first → 4096 * v < size
        → is_among v (pages_at address len) ≡ false }
    ensures behind { (v : ℕ) → result.end ≤ v → 4096 * v < size
        → is_among v (pages_at address len) ≡ false }
{
    let top = page_count(size) as u64 * PAGE_BYTES;
    if address >= top || len == 0 {
        return Pages { first: 0, end: 0 };
    }
    let end = address + (len as u64).min(top - address);
    Pages {
        first: (address / PAGE_BYTES) as usize,
        end: page_count(end) as usize,
    }
}

impl Space {
    /// How many frames the pages from `first` to below `last` take, each where there is none, whatever
    /// rights they get.
    ///
    /// Where a table is absent, or lies behind the end of the space, all of its pages are counted at once.
    pub(crate) fn price_between(&self, ram: &Ram, first: usize, last: usize) -> u32
        requires whole { IsSpace ram.now self.now }
        requires more { first ≤ last }
        requires limit { last ≤ 2 ^ 26 }
        ensures { (perm : Rights)
            → price (filled (image_of ram.now self.now) first (last - first) perm)
            ≡ price (image_of ram.now self.now) + result }
    {
        let mut number = first;
        let mut count: u32 = 0;
        'pages: while number < last {
            let Some(_) = upper_table(ram, self.root, number) else {
                let end = upper_table_end(number).min(last);
                count += 1 + tables_for(number, end) + (end - number) as u32;
                number = end;
                continue 'pages;
            };
            let Some(_) = lower_table(ram, self.root, number) else {
                let end = lower_table_end(number).min(last);
                count += 1 + (end - number) as u32;
                number = end;
                continue 'pages;
            };
            if self.end as usize <= number {
                let end = lower_table_end(number).min(last);
                count += (end - number) as u32;
                number = end;
                continue 'pages;
            }
            count += new_page(ram, self.root, number);
            number += 1;
        }
        count
    }

    /// Adds the pages from `first` to below `last`, each where there is none, all zeros. The size stays.
    ///
    /// Errors: `NoFrames` exactly where the image with the pages costs more than the image and the free
    /// frames; then nothing is changed.
    pub(crate) fn fill(
        &mut self,
        pool: &mut Pool,
        ram: &mut Ram,
        first: usize,
        last: usize,
        perm: Perm,
    ) -> Result<(), NoFrames>
        requires belongs { Belongs pool.old ram.old self.old }
        requires more { first ≤ last }
        requires limit { last ≤ 2 ^ 26 }
        ensures changed { IfOk result (λ _. Changed pool.old ram.old self.old pool.new ram.new self.new) }
        ensures belongs { IfOk result (λ _. Belongs pool.new ram.new self.new) }
        ensures size { self.new.size ≡ self.old.size }
        ensures image { IfOk result (λ _.
            image_of ram.new self.new ≡ filled (image_of ram.old self.old) first (last - first) perm) }
        ensures translations { IfOk result (λ _. TranslationsStay ram.old ram.new self.old.root) }
        ensures others { IfOk result (λ _. SparesOthers pool.old ram.old (frames_of ram.old self.old) ram.new) }
        ensures fits { IfOk result (λ _.
            Affords pool.old ram.old self.old (filled (image_of ram.old self.old) first (last - first) perm)) }
        ensures refused { IfErr result (λ _.
            IsTooDear pool.old ram.old self.old (filled (image_of ram.old self.old) first (last - first) perm)
            × Unchanged pool.old ram.old self.old pool.new ram.new self.new) }
    {
        let extra = self.price_between(ram, first, last);
        if pool.free() < extra {
            return Err(NoFrames);
        }
        for number in first..last {
            let vpn = Vpn::new(number as u32);
            if let None = self.perm(ram, vpn) {
                let Ok(()) = self.map_zeroed(pool, ram, vpn, perm) else {
                    unreachable!();
                };
            }
        }
        Ok(())
    }
}

/// How many lower tables the pages from `number` to below `end` take where there is none.
fn tables_for(number: usize, end: usize) -> u32
    requires some { number < end }
    requires page { end ≤ 2 ^ 26 }
    ensures { result ≡ (end - 1) / 512 - number / 512 + 1 }
{
    ((end - 1) / TABLE_ENTRIES - number / TABLE_ENTRIES + 1) as u32
}

/// Whether a growth needs a page.
fn new_page(ram: &Ram, root: Frame, number: usize) -> u32
    requires root_in { root < length ram.now }
    requires page { number < 2 ^ 26 }
    ensures few { result ≤ 1 }
    ensures there { (f : ℕ) → frame_of (page_entry ram.now root number) ≡ Some f → result ≡ 0 }
    ensures new { frame_of (page_entry ram.now root number) ≡ None → result ≡ 1 }
{
    if let Entry::Leaf(..) = entry_of_page(ram, root, number) {
        return 0;
    }
    1
}

impl Space {
    /// Whether a page's first byte lies below the size.
    fn begins_below_size(&self, vpn: Vpn) -> bool
        ensures { result ≡ nat_lt (4096 * vpn) self.now.size }
    {
        vpn.address() < self.size
    }

    /// Whether a page is absent: its first byte lies below the size, and it isn't there.
    pub fn absent(&self, ram: &Ram, vpn: Vpn) -> bool
        requires { IsSpace ram.now self.now }
        ensures { result ≡ is_absent (image_of ram.now self.now) vpn }
    {
        self.begins_below_size(vpn) && self.perm(ram, vpn).is_none()
    }

    /// What a page allows once it is touched: reading and writing where it is absent, else what it allows
    /// now; none where there is no page.
    pub fn perm_touched(&self, ram: &Ram, vpn: Vpn) -> Option<Perm>
        requires { IsSpace ram.now self.now }
        ensures { result ≡ option_map perm_of_page (get (whole (image_of ram.now self.now)).pages vpn) }
    {
        if let Some(perm) = self.perm(ram, vpn) {
            return Some(perm);
        }
        if self.begins_below_size(vpn) {
            return Some(Perm::data());
        }
        None
    }

    /// How many frames a [`touch`](Space::touch) of so many bytes from an address on takes.
    pub fn touch_price(&self, ram: &Ram, address: u64, len: usize) -> u32
        requires whole { IsSpace ram.now self.now }
        ensures { price (brought (pages_at address len) (image_of ram.now self.now))
            ≡ price (image_of ram.now self.now) + result }
    {
        let pages = pages_below(self.size, address, len);
        self.price_between(ram, pages.first, pages.end)
    }

    /// Adds each absent page in which one of so many bytes from an address on lies: zeros, which user
    /// code may read and write. All other pages stay, those of the range that are there too, and so does
    /// the size. A page is absent only where it begins below the size, so bytes past the last such page
    /// touch nothing.
    ///
    /// Errors: `NoFrames` exactly where the image with the pages costs more than the image and the free
    /// frames; then nothing is changed.
    pub fn touch(
        &mut self,
        pool: &mut Pool,
        ram: &mut Ram,
        address: u64,
        len: usize,
    ) -> Result<(), NoFrames>
        requires belongs { Belongs pool.old ram.old self.old }
        ensures changed { IfOk result (λ _. Changed pool.old ram.old self.old pool.new ram.new self.new) }
        ensures belongs { IfOk result (λ _. Belongs pool.new ram.new self.new) }
        ensures size { self.new.size ≡ self.old.size }
        ensures image { IfOk result (λ _.
            image_of ram.new self.new ≡ brought (pages_at address len) (image_of ram.old self.old)) }
        ensures translations { IfOk result (λ _. TranslationsStay ram.old ram.new self.old.root) }
        ensures others { IfOk result (λ _. SparesOthers pool.old ram.old (frames_of ram.old self.old) ram.new) }
        ensures fits { IfOk result (λ _.
            Affords pool.old ram.old self.old (brought (pages_at address len) (image_of ram.old self.old))) }
        ensures refused { IfErr result (λ _.
            IsTooDear pool.old ram.old self.old (brought (pages_at address len) (image_of ram.old self.old))
            × Unchanged pool.old ram.old self.old pool.new ram.new self.new) }
    {
        let pages = pages_below(self.size, address, len);
        self.fill(pool, ram, pages.first, pages.end, Perm::data())
    }

    /// Makes the size greater, up to [`SIZE_LIMIT`](xk_base::limits::SIZE_LIMIT), and adds no page: those
    /// that are not there are absent, until they are touched. It takes no frame.
    pub fn grow_lazily(&mut self, size: u64)
        requires more { self.old.size ≤ size }
        requires limit { size ≤ SIZE_LIMIT }
        ensures size { self.new.size ≡ size }
        ensures image { (ram : List (List ℕ))
            → image_of ram self.new ≡ grown_lazily (image_of ram self.old) size }
        ensures changed { (pool : Pool) (ram : List (List ℕ)) → Belongs pool ram self.old
            → Changed pool ram self.old pool ram self.new }
        ensures belongs { (pool : Pool) (ram : List (List ℕ)) → Belongs pool ram self.old
            → Belongs pool ram self.new }
    {
        self.size = size;
    }
}
