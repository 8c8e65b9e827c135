// A step of the hart, from phase to phase.
ghost use Rattle.std.specs.Prelude.{◌≡◌, IsTrue};
ghost use Rattle.guest_memory.specs.Bus.{IsBus};
ghost use Rattle.rv_hart.specs.HartStep.{IsHart, over, hart_step};
ghost use Rattle.plain_machine.specs.Messages.{is_counter_access};
ghost use Rattle.kernel_sim.specs.Phases as spec;
ghost use Rattle.kernel_sim.specs.Phases.{next_phase};
ghost use Rattle.kernel_sim.specs.Holds.{Holds};
ghost use Rattle.kernel_sim.specs.Kept.{UserKept, BootBlockKept};
ghost use Rattle.kernel_sim.specs.Steps.{follows};
ghost use Rattle.kernel_sim.specs.Traps.{TrapAfter};
ghost use Rattle.kernel_sim.specs.Changes.{UserAfter, TextAfter, ScannedAfter, StepsCounted, Waits, CodeKept};
ghost use Rattle.kernel_sim.specs.Advance.{Posted};
ghost use Rattle.kernel_sim.specs.Stores.{Stores};
ghost use Rattle.kernel_sim.specs.Progress.{Progress};
ghost use Rattle.kernel_sim.specs.Mailbox.{MailboxKept};

use crate::phase::{Phase, PhaseKind, Spoken, UserState};
use crate::words::{dword, request_of};
use fe_base::memory_map::{BOOT, FROMHOST, KERNEL_VARIABLES, TOHOST};
use guest_memory::Bus;
use kernel_code::places;
use rv_csr::Mode;
use rv_hart::{DebugLines, Hart, Job};

// The kind that a place of the kernel's code belongs to.
#[tactic(auto, unfolding(crate::specs::Phases::kernel_kind))]
fn kind_at(mode: Mode, pc: u64) -> PhaseKind
    ensures { result ≡ spec.kind_of mode pc }
{
    if mode == Mode::User {
        return PhaseKind::User;
    }
    if pc < places::BOOT_WAIT {
        PhaseKind::Boot
    } else if pc < places::BOOT_TAKE {
        PhaseKind::BootWait
    } else if pc < places::LEAVE {
        PhaseKind::BootTake
    } else if pc < places::SAVE {
        PhaseKind::Leave
    } else if pc < places::CHECK {
        PhaseKind::Save
    } else if pc < places::SCAN {
        PhaseKind::Check
    } else if pc < places::LOCAL {
        PhaseKind::Scan
    } else if pc < places::FILL {
        PhaseKind::Local
    } else if pc < places::WAIT {
        PhaseKind::Fill
    } else if pc < places::TAKE {
        PhaseKind::Wait
    } else if pc < places::RESTORE {
        PhaseKind::Take
    } else if pc < places::SPEAK {
        PhaseKind::Restore
    } else if pc < places::CLOSE {
        PhaseKind::Speak
    } else {
        PhaseKind::Closing
    }
}

// The 32 registers.
fn registers(hart: &Hart) -> [u64; 32]
    requires { IsHart hart.now }
    ensures { result ≡ hart.now.registers }
{
    let mut registers = [0; 32];
    for n in 0..32u8 {
        registers[n as usize] = hart.read_reg(n);
    }
    registers
}

#[tactic(auto, unfolding(rv_csr::specs::CsrTable::csr_of))]
fn cause(hart: &Hart) -> u64
    ensures { result ≡ hart.now.csrs.mcause }
{
    match hart.csrs.read(0x342, Mode::Machine) {
        Some(cause) => cause,
        None => 0,
    }
}

#[tactic(auto, unfolding(rv_csr::specs::CsrTable::csr_of))]
fn trap_value(hart: &Hart) -> u64
    ensures { result ≡ hart.now.csrs.mtval }
{
    match hart.csrs.read(0x343, Mode::Machine) {
        Some(value) => value,
        None => 0,
    }
}

// An instruction that asks for a counter.
fn asks_counter(word: u64) -> bool
    ensures { result ≡ is_counter_access word }
{
    let funct3 = word / 0x1000 % 8;
    let csr = word / 0x10_0000 % 0x1000;
    word % 0x80 == 0x73 && funct3 != 0 && funct3 != 4 && 0xc00 <= csr && csr <= 0xc1f
}

fn answered(answer: u64, user: UserState) -> UserState
    ensures { result ≡ spec.answered answer user }
{
    let mut regs = user.regs;
    regs[10] = answer;
    UserState {
        pc: user.pc.wrapping_add(4),
        regs,
        ..user
    }
}

// The program's registers and break after a step into a kind.
fn user_after(hart: &Hart, bus: &Bus, was: PhaseKind, now: PhaseKind, user: UserState) -> UserState
    requires { IsHart hart.now }
    ensures { result ≡ spec.user_after was now user (over bus.now hart.now) }
{
    match (was, now) {
        (PhaseKind::Boot, PhaseKind::BootWait) => UserState {
            brk: dword(bus, KERNEL_VARIABLES),
            first_break: dword(bus, BOOT + 8),
            ..user
        },
        (PhaseKind::User, PhaseKind::User) => UserState {
            pc: hart.pc,
            regs: registers(hart),
            ..user
        },
        (PhaseKind::Leave, PhaseKind::User) => UserState {
            pc: hart.pc,
            regs: registers(hart),
            ..user
        },
        (PhaseKind::Take, PhaseKind::Restore) => UserState {
            brk: dword(bus, KERNEL_VARIABLES),
            ..answered(hart.read_reg(10), user)
        },
        (PhaseKind::Local, PhaseKind::Restore) => UserState {
            brk: dword(bus, KERNEL_VARIABLES),
            ..answered(hart.read_reg(10), user)
        },
        (PhaseKind::Local, PhaseKind::Local) => UserState {
            brk: dword(bus, KERNEL_VARIABLES),
            ..user
        },
        _ => user,
    }
}

// The message after a step into a kind.
fn text_after(hart: &Hart, was: PhaseKind, now: PhaseKind, phase: Phase) -> Spoken
    ensures { result ≡ spec.text_after was now phase hart.now }
{
    match (was, now) {
        (PhaseKind::User, PhaseKind::Save) => {
            let cause = cause(hart);
            let value = trap_value(hart);
            if cause == 8 {
                phase.text
            } else {
                Spoken {
                    counter: cause == 2 && asks_counter(value),
                    cause,
                    at: phase.user.pc,
                    value,
                    posted: 0,
                }
            }
        }
        (PhaseKind::Speak, PhaseKind::Speak) => Spoken {
            posted: if hart.pc == places::PUT_DONE {
                phase.text.posted.saturating_add(1)
            } else {
                phase.text.posted
            },
            ..phase.text
        },
        _ => phase.text,
    }
}

// The path bytes that were passed, after a step into a kind.
fn scanned_after(was: PhaseKind, now: PhaseKind, scanned: u32, pc: u64) -> u32
    ensures { result ≡ spec.scanned_after was now scanned pc }
{
    match (was, now) {
        (PhaseKind::Scan, PhaseKind::Scan) => {
            if pc == places::PATH_PASSED {
                scanned.saturating_add(1)
            } else {
                scanned
            }
        }
        (PhaseKind::Check, PhaseKind::Scan) => 0,
        _ => scanned,
    }
}

// The phase after a step.
fn phase_after(hart: &Hart, bus: &Bus, phase: Phase) -> Phase
    requires { IsHart hart.now }
    ensures { result ≡ next_phase phase (over bus.now hart.now) }
{
    let kind = kind_at(hart.mode, hart.pc);
    Phase {
        kind,
        user: user_after(hart, bus, phase.kind, kind, phase.user),
        tohost: dword(bus, TOHOST),
        fromhost: dword(bus, FROMHOST),
        request: request_of(bus),
        scanned: scanned_after(phase.kind, kind, phase.scanned, hart.pc),
        text: text_after(hart, phase.kind, kind, phase),
    }
}

/// One step of a hart over its bus from a state in which the phase holds; the answer is the phase that holds then.
pub fn advance(hart: &mut Hart, bus: &mut Bus, phase: Phase) -> Phase
    requires holds { Holds phase (over bus.old hart.old) }
    requires hart_range { IsHart hart.old }
    requires bytes { IsBus bus.old }
    ensures step { over bus.new hart.new ≡ hart_step (over bus.old hart.old) }
    ensures next { result ≡ next_phase phase (over bus.new hart.new) }
    ensures holds { Holds result (over bus.new hart.new) }

    // which kinds follow each other, and which fields change
    ensures order { IsTrue (follows phase.kind result.kind) }
    ensures user { UserAfter phase.kind result.kind phase (over bus.old hart.old) (over bus.new hart.new) result.user }
    ensures text { TextAfter phase.kind result.kind phase (over bus.old hart.old) result.text }
    ensures scanned { ScannedAfter phase.kind result.kind phase.scanned result.scanned }

    // the trap that the kernel handles
    ensures trap { TrapAfter phase.kind result.kind (over bus.old hart.old) (over bus.new hart.new) }

    // the mailbox
    ensures posted { Posted phase.kind result.kind phase (over bus.old hart.old) (over bus.new hart.new) }
    ensures stores { Stores phase.kind phase hart.old hart.new result }
    ensures mailbox { MailboxKept phase.kind result.kind bus.old bus.new }
    ensures waits { Waits phase.kind phase result }

    // how many steps are left
    ensures progress { Progress phase hart.old result hart.new }

    // what stays
    ensures user_bytes { UserKept phase.kind result.kind bus.old bus.new }
    ensures boot_block { BootBlockKept bus.old bus.new }
    ensures code { CodeKept bus.old bus.new }
    ensures counted { StepsCounted phase.kind hart.old hart.new }
    ensures hart_range { IsHart hart.new }
    ensures bytes { IsBus bus.new }
{
    let mut lines = DebugLines {
        halt: false,
        resume: false,
        acked: false,
        job: Job::Idle,
        value: 0,
        buffer: [0; 4],
        error: 0,
    };
    hart.step(bus, &mut lines);
    phase_after(hart, bus, phase)
}
