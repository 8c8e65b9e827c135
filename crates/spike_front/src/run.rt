// A run of a program on the direct machine.
ghost use Rattle.std.specs.Prelude.{◌≡◌, ◌≤◌, ◌<◌, ℕ, Some};
ghost use Rattle.folder_tree.specs.Tree.{Tree, IsWellFormed};
ghost use Rattle.host_text.specs.World.{Contents};
ghost use Rattle.plain_machine.specs.Outsides.{outside};
ghost use Rattle.plain_machine.specs.Stands.{Tells};
ghost use Rattle.spike_front.specs.Answers.{IsRunAnswer};
ghost use Rattle.spike_front.specs.FoundFiles.{StaysWellFormed};
ghost use Rattle.spike_front.specs.Plans.{MayBegin};
ghost use Rattle.spike_front.specs.Runs as spec;
ghost use Rattle.spike_front.specs.Runs.{ConsoleSuits, HasRunCauses, IsTimely, LeavesUnasked, PlainRun, case_of};

use crate::answer::Answer;
use elf_loader::Image;
use fe_base::{Sink, Source, Words};
use folder_tree::{Folder, Path};
use plain_machine::{Plain, PlainEnd, PlainFault};
use std::alloc::Global;

/// The answer of a run, and how many steps were made before it.
#[derive(Clone, Copy)]
pub struct RunEnd {
    pub answer: Answer,
    pub steps: u64,
}

/// Runs a program from its start until it ends, to the limit, or to a step that can't be made. Only the start takes
/// memory, and the folder's own calls.
pub fn run_program<I: Source, C: Sink, F: Folder>(
    alloc: Global,
    image: Image,
    args: &Words,
    root: Path,
    limit: u64,
    input: &mut I,
    console: &mut C,
    folder: &mut F,
) -> RunEnd
    requires begins { MayBegin image args.now root }
    requires some { 0 < limit }
    ensures ran { (contents : Contents) → Tells contents (I.left input.old) (C.held console.old) (F.tree folder.old)
        → PlainRun (case_of image args.now root contents limit) result.answer result.steps (I.left input.new)
        (C.held console.new) (F.tree folder.new) }
    ensures timely { (contents : Contents) → Tells contents (I.left input.old) (C.held console.old) (F.tree folder.old)
        → IsTimely (case_of image args.now root contents limit) result.answer result.steps }
    ensures unasked { (contents : Contents) → Tells contents (I.left input.old) (C.held console.old) (F.tree folder.old)
        → LeavesUnasked F.Folder I.Source C.Sink (case_of image args.now root contents limit)
        (outside folder.old input.old console.old) (outside folder.new input.new console.new) result.answer
        result.steps }
    ensures suits { (contents : Contents) → Tells contents (I.left input.old) (C.held console.old) (F.tree folder.old)
        → ConsoleSuits F.Folder I.Source C.Sink (case_of image args.now root contents limit) console.old result.steps
        result.answer }
    ensures causes { HasRunCauses F.Folder I.Source C.Sink (outside folder.old input.old console.old)
        (outside folder.new input.new console.new) result.answer result.steps }
    ensures input_steady { I.steady input.old → result.answer ≡ Answer.InputFault → ⊥ }
    ensures file_steady { (t : Tree) → IsWellFormed t → F.tree folder.old ≡ Some t → F.steady folder.old
        → result.answer ≡ Answer.FileFault → ⊥ }
    ensures formed { (t : Tree) → IsWellFormed t → F.tree folder.old ≡ Some t → StaysWellFormed (F.tree folder.new) }
    ensures answers { IsRunAnswer result.answer }
    ensures spent { (n : ℕ) → result.answer ≡ Answer.StepsSpent n → (n ≡ limit) × (result.steps ≡ n) }
    ensures within { result.steps ≤ limit }
{
    let Ok(mut plain) = Plain::start(alloc, image, args, root) else {
        return RunEnd {
            answer: Answer::OutOfMemory,
            steps: 0,
        };
    };
    let end = plain.run(limit, folder, input, console);
    RunEnd {
        answer: answer_of(end, limit),
        steps: plain.steps(),
    }
}

// How the end of a run to the limit is answered.
fn answer_of(end: PlainEnd, limit: u64) -> Answer
    ensures { result ≡ spec.answer_of limit end }
{
    match end {
        PlainEnd::Exited(status) => Answer::Exited(status),
        PlainEnd::StepsSpent => Answer::StepsSpent(limit),
        PlainEnd::Fault(PlainFault::FileFault) => Answer::FileFault,
        PlainEnd::Fault(PlainFault::InputFault) => Answer::InputFault,
        PlainEnd::Fault(PlainFault::ConsoleFault) => Answer::ConsoleFault,
        PlainEnd::Fault(PlainFault::OutOfMemory) => Answer::OutOfMemory,
    }
}
