// A user program's steps on a hart, behind the PMP as the kernel sets it.
//
// An instruction of a hart in user mode, behind the PMP as the kernel sets it, is the user step of the direct machine:
// a next state, or a call, or a trap of the same cause and value. The hart's step takes that call or trap.
ghost use Rattle.std.specs.Prelude.{◌≡◌};
ghost use Rattle.rv_csr.specs.declared.privilege.Mode.TheVariants as mode_of;
ghost use Rattle.guest_memory.specs.Bus.{IsBus};
ghost use Rattle.rv_hart.specs.HartStep.{IsHart, over, counted_step};
ghost use Rattle.rv_hart.specs.LinedStep.{AreQuiet};
ghost use Rattle.rv_hart.specs.declared.debug.Run.TheVariants as run_of;
ghost use Rattle.kernel_sim.specs.UserMode.{IsFenced, user_step_on, InstructionsAgree, UserStepsAgree, KernelFences};

use guest_memory::Bus;
use rv_hart::{DebugLines, Hart};

/// An instruction of a hart in user mode, behind the PMP as the kernel sets it, is the user step.
#[tactic(auto, using(crate::proofs::Agreement::instructions_agree))]
pub fn instructions_agree()
    ensures { InstructionsAgree }
{}

/// A step of a running hart in user mode, behind the PMP as the kernel sets it, is the user step.
#[tactic(auto, using(crate::proofs::Agreement::user_steps_agree))]
pub fn user_steps_agree()
    ensures { UserStepsAgree }
{}

/// The three writes that the kernel makes set that PMP.
#[tactic(auto, using(crate::proofs::Agreement::kernel_fences))]
pub fn kernel_fences()
    ensures { KernelFences }
{}

/// One step of a running hart in user mode, behind the PMP as the kernel sets it: the user step, which is counted.
pub fn step_user(hart: &mut Hart, bus: &mut Bus, lines: &mut DebugLines)
    requires running { hart.old.run ≡ run_of.Running }
    requires mode { hart.old.mode ≡ mode_of.User }
    requires fenced { IsFenced hart.old.csrs }
    requires quiet { AreQuiet lines.old }
    ensures step { over bus.new hart.new ≡ user_step_on (over bus.old (counted_step mode_of.User hart.old)) }
    ensures lines_stay { lines.new ≡ lines.old }
    ensures range { IsHart hart.new }
    ensures bytes { IsBus bus.old → IsBus bus.new }
{
    hart.step(bus, lines);
}
