//! The memory that page tables give, without the right to store to what is watched.
ghost use Rattle.std.specs.Prelude.{◌≡◌, ℕ, ◌/◌, ◌%◌, IsSome, List};
ghost use Rattle.rv64i_core.specs.Memory.{Memory, Store, stored, bytes_of_width};
ghost use Rattle.hart_core.specs.Steps.{root_of};
ghost use Rattle.hart_core.specs.Translations.{kept_frame};
ghost use Rattle.hart_core.specs.UserMemory.{user_at, space_store, space_state, SpaceState};
ghost use Rattle.hart_core.specs.Watch.{guarded, WatchedState, watched_store};
ghost use base.Fml.{GName};

use crate::paged_memory::Paged;
use crate::watch::Watch;
use rv64i_core::{UserMemory, Width};
use xk_base::Cause;

/// RAM as user code sees it, without the right to store to watched bytes.
#[derive(Drop)]
pub(crate) struct Watched<'a, 'b, 'c> {
    pub(crate) paged: Paged<'a, 2>,
    pub(crate) watch: &'b Watch<'c>,
}

impl<'a, 'b, 'c> UserMemory for Watched<'a, 'b, 'c> {
    ghost bytes_of = { λ p. guarded p.watch.now.bytes.now (user_at p.paged.ram.now (root_of p.paged.root.now)) };

    ghost State = { WatchedState };

    ghost state_of = { λ p. record {
      space = space_state (root_of p.paged.root.now) p.paged.ram.now;
      memory = user_at p.paged.ram.now (root_of p.paged.root.now);
    } };

    ghost with_store = { watched_store };

    ghost Faults = { Unit {0} };

    ghost faults_of = { λ _. tt };

    ghost with_fault = { λ _ _. tt };

    ghost Held = { GName × GName × GName × List ℕ };

    ghost held = { λ p. (
      p.paged.ram.ghost_name,
      p.paged.cache.ghost_name,
      p.paged.fault_address.ghost_name,
      p.watch.now.bytes.now,
    ) };

    ghost reached = { λ p address. IsSome (kept_frame p.paged.cache.now (address / 4096)) };

    #[inline(always)]
    fn fetch(&mut self, pc: u64) -> Result<u32, Cause> {
        self.paged.fetch(pc)
    }

    #[inline(always)]
    fn load(&mut self, address: u64, width: Width) -> Result<u64, Cause> {
        self.paged.load(address, width)
    }

    #[inline(always)]
    fn store(&mut self, address: u64, width: Width, value: u64) -> Result<(), Cause> {
        if address % width.bytes() as u64 != 0 {
            return Err(Cause::StoreMisaligned);
        }
        if self.watch.has_byte_of(address, width) {
            return Err(Cause::StorePageFault);
        }
        self.paged.store(address, width, value)
    }
}
