// A program with its break, and the calls that it makes.
ghost use Rattle.std.specs.Prelude.{◌≡◌, OnErr, IfOk, false};
ghost use Rattle.std.specs.Result.{result_err};
ghost use Rattle.host_text.specs.World.{Contents};
ghost use Rattle.plain_machine.specs.Asks.{needs_outside, part_asks, part_cuts};
ghost use Rattle.plain_machine.specs.Direct.{after_part};
ghost use Rattle.plain_machine.specs.Machines.{machine_when};
ghost use Rattle.plain_machine.specs.Outsides.{Asking, Called, InWorld, outside};
ghost use Rattle.plain_machine.specs.Programs.{part_of};
ghost use Rattle.plain_machine.specs.Stands.{MachineAt, Reaches, Spares, Tells};

use crate::PlainFault;
use crate::cpu::Cpu;
use crate::kernel_part::{Part, kernel_part};
use fe_base::{Sink, Source};
use folder_tree::Folder;
use std::marker::Model;
use syscall_proxy::{CallAnswer, Host};

/// A program, its break, and the break that it had first.
#[derive(Drop)]
pub struct Process {
    pub cpu: Cpu,
    pub program_break: u64,
    pub first_break: u64,
}

impl Model for Process {
    ghost use Rattle.plain_machine.specs.Programs.{Process as DirectProcess};

    ghost Value = { DirectProcess };

    ghost view = { λ p. record { state = p.cpu; program_break = p.program_break; first_break = p.first_break } };
}

/// The call that the program stands at: the status where it ends the program.
pub fn call<F: Folder, I: Source, C: Sink>(
    process: &mut Process,
    host: &mut Host,
    folder: &mut F,
    input: &mut I,
    console: &mut C,
) -> Result<Option<u8>, PlainFault>
    ensures given { host.new.given ≡ host.old.given }
    ensures call { IfOk result (λ status. (c : Contents)
        → Tells c (I.left input.old) (C.held console.old) (F.tree folder.old)
        → Reaches (after_part host.old.given process.old (record { contents = c; numbers = host.old.numbers })
        (part_of process.old)) (machine_when process.new status) host.new.numbers (I.left input.new)
        (C.held console.new) (F.tree folder.new)) }
    ensures lone { IfOk result (λ status.
        needs_outside (part_asks host.old.numbers process.old.state.user (part_of process.old)) ≡ false
        → (c : Contents) → MachineAt (after_part host.old.given process.old
        (record { contents = c; numbers = host.old.numbers }) (part_of process.old))
        (machine_when process.new status) host.new.numbers) }
    ensures kept { OnErr result (process.new ≡ process.old) }
    ensures numbers { OnErr result (host.new.numbers ≡ host.old.numbers) }
    ensures spared { OnErr result ((c : Contents)
        → Tells c (I.left input.old) (C.held console.old) (F.tree folder.old)
        → Spares (part_cuts (part_of process.old)) host.old.given.root c (I.left input.new) (C.held console.new)
        (F.tree folder.new)) }
    ensures called { Called F.Folder I.Source C.Sink (outside folder.old input.old console.old)
        (outside folder.new input.new console.new) (result_err result) }
    ensures asking { Asking F.Folder I.Source C.Sink
        (part_asks host.old.numbers process.old.state.user (part_of process.old))
        (outside folder.old input.old console.old) (outside folder.new input.new console.new) (result_err result) }
    ensures in_world { InWorld F.Folder I.Source C.Sink host.old.numbers host.new.numbers
        (outside folder.old input.old console.old) (outside folder.new input.new console.new) (result_err result) }
{
    match kernel_part(process) {
        Part::Gives(answer) => process.cpu.answer(answer),
        Part::Breaks(moved) => {
            process.program_break = moved;
            process.cpu.answer(moved);
        }
        Part::Posts(request) => {
            match process.cpu.serve(host, folder, input, console, request)? {
                CallAnswer::Result(value) => process.cpu.answer(value),
                CallAnswer::Exit(status) => return Ok(Some(status)),
            }
        }
    }
    Ok(None)
}
