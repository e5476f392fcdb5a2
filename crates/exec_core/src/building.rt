//! Makes the memory of a planned program.
ghost use Rattle.std.specs.Prelude.{◌≡◌, ◌+◌, ◌*◌, ◌/◌, ◌^◌, ◌<◌};
ghost use Rattle.std.specs.Prelude.{◌≤◌, ℕ, length, IfOk, IfErr, []};
ghost use Rattle.xk_base.specs.declared.limits.TheConstants.{SIZE_LIMIT};
ghost use Rattle.xk_base.specs.declared.errors.ExecError.TheVariants.{NoFrames};
ghost use Rattle.xk_base.specs.Image.{price, page_count, no_pages};
ghost use Rattle.xk_base.specs.Bytes.{HasPage, write_image};
ghost use Rattle.xk_base.specs.ProgramFile.{Fit};
ghost use Rattle.xk_base.specs.Loaded.{end_after, lowest, text_places};
ghost use Rattle.frame_list.specs.declared.Pool.{Pool};
ghost use Rattle.frame_list.specs.Pool.{free_in, Good};
ghost use Rattle.addr_space.specs.Changes.{grown};
ghost use Rattle.addr_space.specs.Space.{image_of, Belongs, Changed, Made, IsSpace, SparesOthers, Affords};
ghost use Rattle.exec_core.specs.ArgTexts.{texts_of, IsSplit, pointers_by};
ghost use Rattle.exec_core.specs.Building.{with_segments, with_stack, with_texts, price_first};
ghost use Rattle.xk_base.specs.Access.{data_rights};

use crate::planning::{Entry, ExecPlan, text_place};
use addr_space::Space;
use elf_image::Segments;
use frame_list::Pool;
use phys_ram::Ram;
use sv39_core::{TABLE_ENTRIES, UPPER_TABLE_PAGES};
use xk_base::limits::PAGE_BYTES;
use xk_base::{ExecError, Perm, Vpn};

/// How many pages lie below an upper table, and below a lower one.
const UPPER_PAGES: u64 = UPPER_TABLE_PAGES as u64;

const LOWER_PAGES: u64 = TABLE_ENTRIES as u64;

/// How many frames the first pages take: the root, the tables of the two levels below it, and the pages.
fn price(pages: u64) -> u64
    requires { pages ≤ 2 ^ 26 }
    ensures { result ≡ price_first pages }
{
    let uppers = (pages + (UPPER_PAGES - 1)) / UPPER_PAGES;
    let lowers = (pages + (LOWER_PAGES - 1)) / LOWER_PAGES;
    1 + uppers + lowers + pages
}

/// Maps the segments into a space without pages, and copies their bytes of the file.
fn map_segments(
    space: &mut Space,
    pool: &mut Pool,
    ram: &mut Ram,
    file: &[u8],
    segments: Segments<'_>,
)
    requires belongs { Belongs pool.old ram.old space.old }
    requires empty { image_of ram.old space.old ≡ no_pages }
    requires fit { Fit (length file.now) 0 segments }
    requires room { price_first (page_count (end_after 0 segments)) ≤ 1 + length (free_in pool.old ram.old) }
    ensures changed { Changed pool.old ram.old space.old pool.new ram.new space.new }
    ensures image { image_of ram.new space.new ≡ with_segments file.now no_pages segments.entry }
{
    for segment in segments {
        let end = segment.vaddr + segment.memsz;
        let Ok(()) = space.grow(pool, ram, end, segment.perm) else {
            unreachable!();
        };
        let bytes = &file[segment.off..segment.off + segment.filesz];
        space.write_across(ram, segment.vaddr, bytes);
    }
}

/// Maps the guard page, which user code can't reach, and the stack page behind it.
fn map_stack(space: &mut Space, pool: &mut Pool, ram: &mut Ram, guard: u64)
    requires belongs { Belongs pool.old ram.old space.old }
    requires behind { guard ≡ page_count (image_of ram.old space.old).size }
    requires limit { 4096 * (guard + 2) ≤ SIZE_LIMIT }
    requires room { Affords pool.old ram.old space.old
        (grown (image_of ram.old space.old) (4096 * (guard + 2)) data_rights) }
    ensures changed { Changed pool.old ram.old space.old pool.new ram.new space.new }
    ensures image { image_of ram.new space.new ≡ with_stack (image_of ram.old space.old) guard }
{
    let Ok(()) = space.grow(pool, ram, PAGE_BYTES * (guard + 2), Perm::data()) else {
        unreachable!();
    };
    space.protect(ram, Vpn::new(guard as u32));
}

/// Lays the texts, each with its zero byte, below the end of a page, the first one at the top.
fn lay_texts(space: &Space, ram: &mut Ram, lengths: &[usize], bytes: &[u8], page: u64)
    requires whole { IsSpace ram.old space.now }
    requires there { HasPage (image_of ram.old space.now) page }
    requires last { page < 2 ^ 26 }
    requires split { IsSplit lengths.now bytes.now }
    requires room { 4096 * page
        ≤ lowest (4096 * (page + 1)) (text_places (4096 * (page + 1)) (texts_of lengths.now bytes.now)) }
    requires some { 0 < page }
    ensures changed { (pool : Pool) → Belongs pool ram.old space.now
        → Changed pool ram.old space.now pool ram.new space.now }
    ensures image { image_of ram.new space.now
        ≡ with_texts (image_of ram.old space.now) (4096 * (page + 1)) (texts_of lengths.now bytes.now) }
{
    let mut place = PAGE_BYTES * (page + 1);
    let mut from = 0;
    for length in lengths {
        place = text_place(place, *length);
        space.write_across(ram, place, &bytes[from..from + *length + 1]);
        from += *length + 1;
    }
}

/// Lays the addresses of the texts, and a null pointer behind them, from the stack pointer on.
fn lay_pointers(space: &Space, ram: &mut Ram, lengths: &[usize], page: u64, sp: u64)
    requires whole { IsSpace ram.old space.now }
    requires there { HasPage (image_of ram.old space.now) page }
    requires last { page < 2 ^ 26 }
    requires low { 4096 * page ≤ sp }
    requires room { sp + 8 * (length lengths.now + 1) ≤ 4096 * (page + 1) }
    ensures changed { (pool : Pool) → Belongs pool ram.old space.now
        → Changed pool ram.old space.now pool ram.new space.now }
    ensures image { image_of ram.new space.now
        ≡ write_image (image_of ram.old space.now) sp (pointers_by (4096 * (page + 1)) lengths.now) }
{
    let mut place = PAGE_BYTES * (page + 1);
    let mut at = sp;
    for length in lengths {
        place = text_place(place, *length);
        space.write_across(ram, at, &place.to_le_bytes());
        at += 8;
    }
    space.write_across(ram, at, &[0; 8]);
}

impl ExecPlan<'_> {
    /// How many frames the memory of the program takes.
    pub fn price(&self) -> u64
        ensures { result ≡ price self.now.image }
    {
        price(self.guard + 2)
    }
}

/// Makes the memory of a planned program, and says with which registers the program starts.
///
/// The space's frames come from the free ones, and all other frames keep their bytes.
///
/// # Errors
///
/// [`ExecError::NoFrames`] exactly where the memory costs more frames than are free; then nothing is
/// changed.
pub fn build(
    plan: ExecPlan<'_>,
    pool: &mut Pool,
    ram: &mut Ram,
) -> Result<(Space, Entry), ExecError>
    requires good { Good pool.old ram.old }
    ensures made { IfOk result (λ r. Made pool.old ram.old pool.new ram.new r.0) }
    ensures belongs { IfOk result (λ r. Belongs pool.new ram.new r.0) }
    ensures image { IfOk result (λ r. image_of ram.new r.0 ≡ plan.entry.image) }
    ensures start { IfOk result (λ r.
        r.1 ≡ record { pc = plan.entry.pc; sp = plan.entry.sp; argc = plan.entry.argc }) }
    ensures others { IfOk result (λ _. SparesOthers pool.old ram.old [] ram.new) }
    ensures fits { IfOk result (λ _. price plan.entry.image ≤ length (free_in pool.old ram.old)) }
    ensures refused { IfErr result (λ e.
        (e ≡ NoFrames) × (length (free_in pool.old ram.old) < price plan.entry.image)
        × (pool.new ≡ pool.old) × (ram.new ≡ ram.old)) }
{
    let ExecPlan {
        file,
        segments,
        guard,
        args,
        start,
    } = plan;
    if u64::from(pool.free()) < price(guard + 2) {
        return Err(ExecError::NoFrames);
    }
    let Ok(mut space) = Space::empty(pool, ram) else {
        unreachable!();
    };
    map_segments(&mut space, pool, ram, file, segments);
    map_stack(&mut space, pool, ram, guard);
    let (lengths, bytes) = args.parts();
    lay_texts(&space, ram, lengths, bytes, guard + 1);
    lay_pointers(&space, ram, lengths, guard + 1, start.sp);
    Ok((space, start))
}
