// Which doublewords of a range are mapped.
ghost use Rattle.std.specs.Prelude.{◌≡◌, ◌≤◌, ◌<◌, ◌%◌, ℕ, MatchOption, true, false};
ghost use Rattle.fe_base.specs.MemoryMap.{is_mapped};
ghost use Rattle.chunk_memory.specs.Ranges.{IsMappedRange, IsFirstUnmapped};

use fe_base::memory_map::{KERNEL_END, KERNEL_START, START_WORD, USER_END, USER_START};

// The end of the area in which a byte stands. None where it is not mapped.
#[tactic(auto, using(std::proofs::lemmas::Bool::Decides::nat_tests))]
fn area_end(at: u64) -> Option<u64>
    ensures { MatchOption result (is_mapped at ≡ false)
        (λ end. (at < end) × (end % 8 ≡ 0) × (is_mapped end ≡ false)
        × ((byte : ℕ) → at ≤ byte → byte < end → is_mapped byte ≡ true)) }
{
    if USER_START <= at && at < USER_END {
        return Some(USER_END);
    }
    if START_WORD <= at && at < START_WORD + 8 {
        return Some(START_WORD + 8);
    }
    if KERNEL_START <= at && at < KERNEL_END {
        return Some(KERNEL_END);
    }
    None
}

/// The address of the first doubleword of a range that is not mapped, of those that have a byte of it.
pub fn first_unmapped(at: u64, count: usize) -> Option<u64>
    ensures { MatchOption result (IsMappedRange at count) (IsFirstUnmapped at count) }
{
    if count == 0 {
        return None;
    }
    match area_end(at) {
        Some(end) => {
            if count as u64 <= end - at {
                None
            } else {
                Some(end)
            }
        }
        None => Some(at - at % 8),
    }
}
