// The host's calls over the user area of a bus.
ghost use Rattle.std.specs.Prelude.{◌≡◌, ◌⊎◌, ℕ, List, [], Err, Ok, Some, false, IfOk, OnErr};
ghost use Rattle.std.specs.Result.{result_err};
ghost use Rattle.fe_base.specs.Outside.{Rose};
ghost use Rattle.folder_tree.specs.Tree.{Tree};
ghost use Rattle.guest_memory.specs.Bus.{IsBus};
ghost use Rattle.host_text.specs.Outside.{acts};
ghost use Rattle.host_text.specs.Played.{Played, at};
ghost use Rattle.host_text.specs.World.{Contents};
ghost use Rattle.syscall_proxy.specs.CallTable.{call_row};
ghost use Rattle.syscall_proxy.specs.HostLaws.{Late, NeverFell, Unmoved};
ghost use Rattle.syscall_proxy.specs.Kept.{kept};
ghost use Rattle.syscall_proxy.specs.Worlds.{IsWorldOf};
ghost use Rattle.syscall_proxy.specs.declared.answers.CallFault.{CallFault as Fault};
ghost use Rattle.plain_machine.specs.Asks.{needs_outside, request_cuts, row_asks};
ghost use Rattle.plain_machine.specs.Outsides.{Asking, Called, InWorld, outside};
ghost use Rattle.plain_machine.specs.Rows.{IsInside, RowLed, RowRan, step_result};
ghost use Rattle.plain_machine.specs.Stands.{Tells, Spares};

use crate::PlainFault;
use chunk_memory::{ChunkPort, Chunked, RamPort};
use fe_base::memory_map::USER_START;
use fe_base::{ErrNo, Sink, Source};
use folder_tree::Folder;
use guest_memory::Bus;
use syscall_proxy::{CallAnswer, CallFault, Host};

// A host's call over a port, which is given back. The outcome is left in `outcome`.
fn call_over<P: ChunkPort, F: Folder, I: Source, C: Sink>(
    port: P,
    host: &mut Host,
    folder: &mut F,
    input: &mut I,
    console: &mut C,
    request: [u64; 8],
    outcome: &mut Result<CallAnswer, CallFault>,
) -> P
    requires usable { P.usable port }
    ensures kept { P.kept result ≡ P.kept port }
    ensures given { host.new.given ≡ host.old.given }
    ensures played { Played (acts P.ChunkPort F.Folder I.Source C.Sink)
        (call_row host.old.given host.old.numbers request)
        (at port folder.old input.old console.old (kept host.old.numbers false [])) outcome.new
        (at result folder.new input.new console.new (kept host.new.numbers host.new.acted [])) }
    ensures fault { (fault : Fault) → outcome.new ≡ Err fault → Unmoved F.Folder I.Source C.Sink
        (at port folder.old input.old console.old (kept host.old.numbers false []))
        (at result folder.new input.new console.new (kept host.new.numbers host.new.acted []))
        ⊎ Late (at port folder.old input.old console.old (kept host.old.numbers false []))
        (at result folder.new input.new console.new (kept host.new.numbers host.new.acted [])) fault }
    ensures file_fault { outcome.new ≡ Err CallFault.FileFault → Rose (F.faults folder.old) (F.faults folder.new) }
    ensures out_of_memory { outcome.new ≡ Err CallFault.OutOfMemory → Rose (F.short folder.old) (F.short folder.new) }
    ensures input_fault { outcome.new ≡ Err CallFault.InputFault → Rose (I.faults input.old) (I.faults input.new) }
    ensures console_fault { outcome.new ≡ Err CallFault.ConsoleFault
        → Rose (C.faults console.old) (C.faults console.new) }
    ensures counts { NeverFell P.ChunkPort F.Folder I.Source C.Sink
        (at port folder.old input.old console.old (kept host.old.numbers false []))
        (at result folder.new input.new console.new (kept host.new.numbers host.new.acted [])) }
    ensures world { (t : Tree) → F.tree folder.old ≡ Some t → IsWorldOf host.old.numbers t
        → (now : Tree) × (F.tree folder.new ≡ Some now) × IsWorldOf host.new.numbers now }
    ensures steady { (t : Tree) → F.tree folder.old ≡ Some t → IsWorldOf host.old.numbers t
        → F.steady folder.old → (outcome.new ≡ Err CallFault.FileFault → ⊥)
        × (F.faults folder.new ≡ F.faults folder.old) × F.steady folder.new }
{
    let mut memory = Chunked::over(port);
    *outcome = host.call(&mut memory, folder, input, console, request);
    memory.into_port()
}

// What a call came to. Memory that is refused is answered EFAULT; a bus refuses nothing of the user area.
fn result_of(outcome: Result<CallAnswer, CallFault>) -> Result<CallAnswer, PlainFault>
    ensures { result ≡ step_result outcome }
{
    match outcome {
        Ok(answer) => Ok(answer),
        Err(CallFault::Port(_)) => Ok(CallAnswer::Result(ErrNo::EFAULT.result())),
        Err(CallFault::FileFault) => Err(PlainFault::FileFault),
        Err(CallFault::InputFault) => Err(PlainFault::InputFault),
        Err(CallFault::ConsoleFault) => Err(PlainFault::ConsoleFault),
        Err(CallFault::OutOfMemory) => Err(PlainFault::OutOfMemory),
    }
}

// Does nothing: it tells that the areas of a bus have their sizes and hold bytes, as each load does.
fn tell_sizes(bus: &Bus)
    ensures { IsBus bus.now }
{
    let _byte = bus.load(USER_START, 1);
}

/// The host's call of a request over the user area.
pub fn call_on<F: Folder, I: Source, C: Sink>(
    bus: &mut Bus,
    host: &mut Host,
    folder: &mut F,
    input: &mut I,
    console: &mut C,
    request: [u64; 8],
) -> Result<CallAnswer, PlainFault>
    requires { IsInside host.old.given request }
    ensures given { host.new.given ≡ host.old.given }
    ensures row { IfOk result (λ answer. (c : Contents)
        → Tells c (I.left input.old) (C.held console.old) (F.tree folder.old)
        → RowRan host.old host.new request c bus.old.user bus.new.user answer (I.left input.new) (C.held console.new)
        (F.tree folder.new)) }
    ensures lone { IfOk result (λ answer. needs_outside (row_asks host.old.numbers request bus.old.user) ≡ false
        → (c : Contents) → RowLed host.old host.new request c bus.old.user bus.new.user answer) }
    ensures kept { OnErr result (bus.new.user ≡ bus.old.user) }
    ensures numbers { OnErr result (host.new.numbers ≡ host.old.numbers) }
    ensures spared { OnErr result ((c : Contents)
        → Tells c (I.left input.old) (C.held console.old) (F.tree folder.old)
        → Spares (request_cuts request) host.old.given.root c (I.left input.new) (C.held console.new)
        (F.tree folder.new)) }
    ensures called { Called F.Folder I.Source C.Sink (outside folder.old input.old console.old)
        (outside folder.new input.new console.new) (result_err result) }
    ensures asking { Asking F.Folder I.Source C.Sink
        (row_asks host.old.numbers request bus.old.user)
        (outside folder.old input.old console.old) (outside folder.new input.new console.new) (result_err result) }
    ensures in_world { InWorld F.Folder I.Source C.Sink host.old.numbers host.new.numbers
        (outside folder.old input.old console.old) (outside folder.new input.new console.new) (result_err result) }
{
    tell_sizes(bus);
    let mut outcome = Err(CallFault::OutOfMemory);
    let _port = call_over(
        RamPort::over(bus),
        host,
        folder,
        input,
        console,
        request,
        &mut outcome,
    );
    result_of(outcome)
}
