// A host's call.
ghost use Rattle.std.specs.Prelude.{◌≡◌, ◌⊎◌, ℕ, List, [], Err, Ok, Some, false, true, IfOk};
ghost use Rattle.fe_base.specs.Outside.{capacity, PutSuits, Rose};
ghost use Rattle.folder_tree.specs.Tree.{Tree};
ghost use Rattle.host_text.specs.Outside.{acts};
ghost use Rattle.host_text.specs.Played.{Played, at};
ghost use Rattle.syscall_proxy.specs.Acted.{ActedLate, NotActed};
ghost use Rattle.syscall_proxy.specs.CallTable.{call_row};
ghost use Rattle.syscall_proxy.specs.HostLaws.{Late, NeverFell, Unmoved};
ghost use Rattle.syscall_proxy.specs.Kept.{kept};
ghost use Rattle.syscall_proxy.specs.Streams.{call_asks, call_puts, call_takes};
ghost use Rattle.syscall_proxy.specs.Worlds.{IsWorldOf};
ghost use Rattle.syscall_proxy.specs.declared.answers.CallFault.{CallFault as Fault};

use crate::calls::Calls;
use crate::host::Host;
use crate::objects::Objects;
use crate::setting::Setting;
use crate::{CallAnswer, CallFault};
use chunk_memory::{ChunkPort, Chunked};
use fe_base::{Sink, Source};
use folder_tree::Folder;

impl Host {
    /// Carries out the call of a request: its number, and then its arguments. The row of the call table is what is done
    /// (`specs/CallTable`), in its order.
    pub fn call<P: ChunkPort, F: Folder, I: Source, C: Sink>(
        &mut self,
        mem: &mut Chunked<P>,
        folder: &mut F,
        input: &mut I,
        console: &mut C,
        request: [u64; 8],
    ) -> Result<CallAnswer, CallFault>
        requires usable { P.usable mem.old }
        ensures usable { P.usable mem.new }
        ensures given { self.new.given ≡ self.old.given }
        ensures played { (waiting : List ℕ) → Played (acts P.ChunkPort F.Folder I.Source C.Sink)
            (call_row self.old.given self.old.numbers request)
            (at mem.old folder.old input.old console.old (kept self.old.numbers false waiting)) result
            (at mem.new folder.new input.new console.new (kept self.new.numbers self.new.acted waiting)) }
        ensures fault { (fault : Fault) → result ≡ Err fault → Unmoved F.Folder I.Source C.Sink
            (at mem.old folder.old input.old console.old (kept self.old.numbers false []))
            (at mem.new folder.new input.new console.new (kept self.new.numbers self.new.acted []))
            ⊎ Late (at mem.old folder.old input.old console.old (kept self.old.numbers false []))
            (at mem.new folder.new input.new console.new (kept self.new.numbers self.new.acted [])) fault }
        ensures acted { IfOk result (λ answer. self.new.acted ≡ true) }
        ensures not_acted { (fault : Fault) → result ≡ Err fault → self.new.acted ≡ false
            → NotActed P.ChunkPort F.Folder I.Source C.Sink self.old.given self.old.numbers request
            (at mem.old folder.old input.old console.old (kept self.old.numbers false [])) result
            (at mem.new folder.new input.new console.new (kept self.new.numbers self.new.acted [])) }
        ensures acted_late { (fault : Fault) → result ≡ Err fault → self.new.acted ≡ true
            → ActedLate P.ChunkPort F.Folder I.Source C.Sink self.old.given self.old.numbers request
            (at mem.old folder.old input.old console.old (kept self.old.numbers false []))
            (at mem.new folder.new input.new console.new (kept self.new.numbers self.new.acted [])) fault }
        ensures file_fault { result ≡ Err CallFault.FileFault → Rose (F.faults folder.old) (F.faults folder.new) }
        ensures out_of_memory { result ≡ Err CallFault.OutOfMemory → Rose (F.short folder.old) (F.short folder.new) }
        ensures input_fault { result ≡ Err CallFault.InputFault → Rose (I.faults input.old) (I.faults input.new) }
        ensures console_fault { result ≡ Err CallFault.ConsoleFault → Rose (C.faults console.old) (C.faults console.new) }
        ensures counts { NeverFell P.ChunkPort F.Folder I.Source C.Sink
            (at mem.old folder.old input.old console.old (kept self.old.numbers false []))
            (at mem.new folder.new input.new console.new (kept self.new.numbers self.new.acted [])) }
        ensures world { (t : Tree) → F.tree folder.old ≡ Some t → IsWorldOf self.old.numbers t
            → (now : Tree) × (F.tree folder.new ≡ Some now) × IsWorldOf self.new.numbers now }
        ensures steady { (t : Tree) → F.tree folder.old ≡ Some t → IsWorldOf self.old.numbers t
            → F.steady folder.old → (result ≡ Err CallFault.FileFault → ⊥)
            × (F.faults folder.new ≡ F.faults folder.old) × F.steady folder.new }
        ensures steady_input { I.steady input.old → (result ≡ Err CallFault.InputFault → ⊥)
            × (I.faults input.new ≡ I.faults input.old) × I.steady input.new }
        ensures steady_console { C.steady console.old → PutSuits (C.room console.old) (call_puts self.old.numbers request)
            → (result ≡ Err CallFault.ConsoleFault → ⊥)
            × (C.faults console.new ≡ C.faults console.old) × C.steady console.new }
        ensures console_stays { C.steady console.old → (result ≡ Err CallFault.ConsoleFault → ⊥)
            → (C.faults console.new ≡ C.faults console.old) × C.steady console.new }
        ensures capacity { capacity (C.held console.new) (C.room console.new)
            ≡ capacity (C.held console.old) (C.room console.old) }
        ensures input_untouched { call_takes self.old.numbers request ≡ 0 → input.new ≡ input.old }
        ensures console_untouched { call_puts self.old.numbers request ≡ 0 → console.new ≡ console.old }
        ensures folder_untouched { call_asks self.old.numbers request ≡ false → folder.new ≡ folder.old }
        ensures input_asked { call_takes self.old.numbers request ≡ 0 → result ≡ Err CallFault.InputFault → ⊥ }
        ensures console_asked { call_puts self.old.numbers request ≡ 0 → result ≡ Err CallFault.ConsoleFault → ⊥ }
        ensures file_asked { call_asks self.old.numbers request ≡ false → result ≡ Err CallFault.FileFault → ⊥ }
        ensures memory_asked { call_asks self.old.numbers request ≡ false → result ≡ Err CallFault.OutOfMemory → ⊥ }
    {
        carry_out(
            &mut self.calls,
            &self.setting,
            mem,
            folder,
            input,
            console,
            &request,
        )
    }
}

// The call over the objects, lent for its time.
fn carry_out<P: ChunkPort, F: Folder, I: Source, C: Sink>(
    calls: &mut Calls,
    setting: &Setting,
    mem: &mut Chunked<P>,
    folder: &mut F,
    input: &mut I,
    console: &mut C,
    request: &[u64; 8],
) -> Result<CallAnswer, CallFault>
    requires usable { P.usable mem.old }
    ensures usable { P.usable mem.new }
    ensures played { (waiting : List ℕ) → Played (acts P.ChunkPort F.Folder I.Source C.Sink)
        (call_row setting.now calls.old.numbers request.now)
        (at mem.old folder.old input.old console.old (kept calls.old.numbers false waiting)) result
        (at mem.new folder.new input.new console.new (kept calls.new.numbers calls.new.acted waiting)) }
{
    let mut objects = Objects {
        mem,
        folder,
        input,
        console,
    };
    calls.acted = false;
    let result = calls.dispatch(&mut objects, setting, request);
    objects.end();
    result
}
