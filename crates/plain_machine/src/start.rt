// The memory that a program finds at its start.
ghost use Rattle.std.specs.Prelude.{◌≡◌, ◌≤◌, ◌+◌, length, IfOk, All};
ghost use Rattle.elf_loader.specs.ElfFile.{IsFitSegment};
ghost use Rattle.elf_loader.specs.MainVars.{main_vars_text};
ghost use Rattle.elf_loader.specs.Rules.{user_rules};
ghost use Rattle.fe_base.specs.MemoryMap.{user_start, user_end};
ghost use Rattle.fe_base.specs.WordLists.{main_vars_length};
ghost use Rattle.guest_memory.specs.Bus.{user_size};
ghost use Rattle.guest_memory.specs.Memory.{zeros};
ghost use Rattle.plain_machine.specs.Starts.{placed, loaded};

use elf_loader::{Segments, main_vars};
use fe_base::Words;
use fe_base::limits::{MAIN_VARS_LIMIT, STACK_TOP};
use guest_memory::Bus;
use std::alloc::{AllocError, Global};

// Puts bytes into the user area, from an address.
fn place(bus: &mut Bus, at: u64, bytes: &[u8])
    requires low { user_start ≤ at }
    requires high { at + length bytes.now ≤ user_end }
    ensures { bus.new.user ≡ placed bus.old.user at bytes.now }
{
    bus.bytes_mut(at, bytes.len() as u64).copy_from_slice(bytes);
}

// Puts each segment's bytes into the user area, at its address.
fn load(bus: &mut Bus, segments: &Segments)
    requires low { All (λ s. user_start ≤ s.address) segments.now }
    requires high { All (λ s. s.address + length s.bytes ≤ STACK_TOP) segments.now }
    ensures { bus.new.user ≡ loaded segments.now bus.old.user }
{
    for i in 0..segments.len() {
        place(bus, segments.address(i), segments.bytes(i));
    }
}

/// The bus at the start: the user area is zeros but for the segments, and the main vars at the stack's top.
pub fn first_bus(alloc: Global, segments: &Segments, args: &Words) -> Result<Bus, AllocError>
    requires fit { All (IsFitSegment user_rules.areas) segments.now }
    requires arguments { main_vars_length args.now ≤ MAIN_VARS_LIMIT }
    ensures { IfOk result (λ bus. bus.user
        ≡ placed (loaded segments.now (zeros user_size)) STACK_TOP (main_vars_text args.now STACK_TOP)) }
{
    let mut bus = Bus::new(alloc)?;
    let vars = main_vars(alloc, args, STACK_TOP)?;
    load(&mut bus, segments);
    place(&mut bus, STACK_TOP, vars.as_slice());
    Ok(bus)
}
