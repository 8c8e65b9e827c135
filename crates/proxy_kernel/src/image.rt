// The kernel's items, and its code.
ghost use Rattle.std.specs.Prelude.{◌≡◌, ◌*◌, ◌≤◌, All, IfOk, length, map, Ok, Some};
ghost use Rattle.rv_decode.specs.InsnTable.{insn_of};
ghost use Rattle.asm_items.specs.ItemMeaning.{assembled, Code as IsCode, HoldsParts};
ghost use Rattle.asm_items.specs.Printable.{IsPrintable};
ghost use Rattle.proxy_kernel.specs.Image.{HoldsInsns};
ghost use Rattle.proxy_kernel.specs.Kernel.{kernel};
ghost use Rattle.proxy_kernel.specs.KernelWords.{kernel_count, kernel_insns, kernel_words};

use crate::list::KERNEL;
use crate::rows::items_from;
use asm_items::{AsmFault, Code, Items, assemble};
use fe_base::memory_map::{KERNEL_CODE_SIZE, KERNEL_START};
use std::alloc::{AllocError, Global};

/// The items of the kernel. They have no fault, and each can be written as text.
#[tactic(auto, unfolding(crate::specs::Kernel::kernel))]
pub fn kernel_items(alloc: Global) -> Result<Items, AllocError>
    ensures items { IfOk result (λ items. items ≡ kernel) }
    ensures printable { IfOk result (λ items. All IsPrintable items) }
    ensures assembles { assembled KERNEL_START kernel ≡ Ok (map IsCode kernel_insns) }
{
    items_from(alloc, &KERNEL)
}

/// The kernel's code, to stand at the start of the kernel area: its items, assembled there.
pub fn kernel_image(alloc: Global) -> Result<Code, AllocError>
    ensures base { IfOk result (λ code. code.base ≡ KERNEL_START) }
    ensures code { IfOk result (λ code. HoldsParts code.bytes (assembled KERNEL_START kernel)) }
    ensures insns { IfOk result (λ code. HoldsInsns code.bytes kernel_insns) }
    ensures length { IfOk result (λ code. length code.bytes ≡ 4 * kernel_count) }
    ensures size { 4 * kernel_count ≤ KERNEL_CODE_SIZE }
    ensures words { map insn_of kernel_words ≡ map Some kernel_insns }
{
    let items = kernel_items(alloc)?;
    match assemble(alloc, items.as_slice(), KERNEL_START) {
        Ok(code) => Ok(code),
        Err(AsmFault::OutOfMemory) => Err(AllocError),
        Err(_) => unreachable!(),
    }
}
