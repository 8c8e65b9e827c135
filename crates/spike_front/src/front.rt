// The top call: from the words to the answer.
ghost use Rattle.std.specs.Prelude.{◌≡◌, ◌≤◌, ◌<◌, ◌++◌, ◌⊎◌, ℕ, List, Option, Some, None, Ok, IsSome, length};
ghost use Rattle.fe_base.specs.Limits.{report_line_limit};
ghost use Rattle.fe_base.specs.Outside.{PutSuits};
ghost use Rattle.folder_tree.specs.Tree.{Tree, IsWellFormed};
ghost use Rattle.plain_machine.specs.Outsides.{outside};
ghost use Rattle.plain_machine.specs.Stands.{HasFiles};
ghost use Rattle.spike_front.specs.Answers.{IsRefusal, IsSaid, IsStop, IsWordsRefusal};
ghost use Rattle.spike_front.specs.Causes.{RoseFor};
ghost use Rattle.spike_front.specs.Listings.{GrewBy, IsKept, Listed, Listing, ListingSuits, OnePut};
ghost use Rattle.spike_front.specs.Plans.{AreTooLong, AsksListing, HasLimit, IsListing, MayAnswer, MayPut};
ghost use Rattle.spike_front.specs.Plans.{NamesNone, Plans, plan_of, put, refuse, words_refusal};
ghost use Rattle.spike_front.specs.FoundFiles.{StaysOrOpens, StaysWellFormed};
ghost use Rattle.spike_front.specs.Report.{Reported};
ghost use Rattle.spike_front.specs.Runs.{Asks, ConsoleSuits, HasRunCauses, IsAnsweredRun, IsTimely, LeavesUnasked};
ghost use Rattle.spike_front.specs.Runs.{PlainRun, RunCase};
ghost use Rattle.spike_front.specs.Words.{command_of, first_count};

use crate::answer::Answer;
use crate::file::Stop;
use crate::plan::{Plan, make_plan};
use crate::report::line_of;
use crate::run::run_program;
use crate::words::{first_count, read_command};
use fe_base::{Bytes, Sink, Source, Words};
use folder_tree::Folder;
use std::alloc::Global;

/// An answer, and how many steps were made before it, where steps are counted.
#[derive(Clone, Copy)]
struct Ending {
    answer: Answer,
    steps: Option<u64>,
}

/// Does what the words after the program's name ask for, and puts the report's last line.
pub fn front<I: Source, C: Sink, R: Sink, F: Folder>(
    alloc: Global,
    words: &Words,
    input: &mut I,
    console: &mut C,
    report: &mut R,
    folder: &mut F,
) -> Answer
    // Words that are no command are refused first, exactly by the kind and the place of their first failure, and then
    // nothing but the report is called.
    ensures words { IsWordsRefusal result → words_refusal words.now ≡ Some result }
    ensures other_words { (a : Answer) → words_refusal words.now ≡ Some a → IsSaid a result
        × Reported result (first_count (command_of words.now)) (R.held report.old) (R.held report.new) }
    ensures other_words_untouched { IsSome (words_refusal words.now) → (input.new ≡ input.old)
        × (console.new ≡ console.old) × (folder.new ≡ folder.old) }
    ensures no_file_untouched { NamesNone (command_of words.now) → folder.new ≡ folder.old }

    // The other refusals are answered exactly where the tree of files says so, but for what stops the work before; and
    // then neither input nor console was called, and all files are as they were.
    ensures refusal { (t : Tree) → IsWellFormed t → F.tree folder.old ≡ Some t → IsRefusal result
        → plan_of words.now t ≡ refuse result }
    ensures refused { (t : Tree) (a : Answer) → Plans words.now t (refuse a) (F.tree folder.old)
        → (answer : Answer) × ((answer ≡ a) ⊎ IsStop answer) × IsSaid answer result
        × Reported result (first_count (command_of words.now)) (R.held report.old) (R.held report.new)
        × RoseFor (answer ≡ Answer.FileFault) (F.faults folder.old) (F.faults folder.new)
        × (F.steady folder.old → answer ≡ Answer.FileFault → ⊥)
        × ((IsStop answer → ⊥) → F.tree folder.new ≡ Some t) }
    ensures refused_untouched { (t : Tree) (a : Answer) → Plans words.now t (refuse a) (F.tree folder.old)
        → (input.new ≡ input.old) × (console.new ≡ console.old) × HasFiles t (F.tree folder.new) }

    // Whatever the objects tell: each command has answers of its own, or its report fails. A refusal left input and
    // console alone, and a listing the input; and what is answered of the arguments' length and of the limit is so of
    // the words. Of a tree that is told all is then as it was, but that one of its files may be open once more; and
    // whatever is answered it is told, and well formed where it was. A report that is told has grown by exactly the
    // line of the answer: with a number of steps up to the limit where the command runs a program, 0 where it refuses
    // and the limit where that was spent, and with none where it puts a listing. Of such a command Done is answered
    // exactly where its text was put: then the report was not called, and a console that is told has grown by a text
    // that the command may put; else it is as it was.
    ensures answers { MayAnswer (command_of words.now) result ⊎ (result ≡ Answer.ReportFault) }
    ensures refusal_untouched { IsRefusal result → (input.new ≡ input.old) × (console.new ≡ console.old) }
    ensures listing_untouched { IsListing (command_of words.now) → input.new ≡ input.old }
    ensures too_long { (n : ℕ) → result ≡ Answer.ArgsTooLong n → AreTooLong words.now n }
    ensures spent { (n : ℕ) → result ≡ Answer.StepsSpent n → HasLimit words.now n }
    ensures opens { (t : Tree) → IsWellFormed t → F.tree folder.old ≡ Some t
        → IsRefusal result ⊎ IsListing (command_of words.now) → StaysOrOpens t (F.tree folder.new) }
    ensures formed { (t : Tree) → IsWellFormed t → F.tree folder.old ≡ Some t → StaysWellFormed (F.tree folder.new) }
    ensures reported { (steps : Option ℕ) × Reported result steps (R.held report.old) (R.held report.new)
        × (IsRefusal result → steps ≡ first_count (command_of words.now))
        × (IsListing (command_of words.now) → steps ≡ None)
        × ((limit : ℕ) → HasLimit words.now limit → (n : ℕ) × (steps ≡ Some n) × (n ≤ limit))
        × ((n : ℕ) → result ≡ Answer.StepsSpent n → steps ≡ Some n) }
    ensures done { result ≡ Answer.Done → IsListing (command_of words.now) × (report.new ≡ report.old)
        × GrewBy (MayPut (command_of words.now)) (C.held console.old) (C.held console.new) }
    ensures not_done { IsListing (command_of words.now) → (result ≡ Answer.Done → ⊥)
        → IsKept (C.held console.old) (C.held console.new) }

    // A listing is put whole or the console is as it was, and Done is answered exactly where it was put: no fault of
    // the report takes its place. A steady console with room for it, and a steady folder, fail no listing.
    ensures listed { (listing : Listing) → AsksListing words.now listing (F.tree folder.old)
        → (answer : Answer) × Listed listing answer (C.held console.old) (C.held console.new)
        × IsSaid answer result × (answer ≡ Answer.Done → result ≡ Answer.Done)
        × Reported result None (R.held report.old) (R.held report.new)
        × RoseFor (answer ≡ Answer.ConsoleFault) (C.faults console.old) (C.faults console.new)
        × RoseFor (answer ≡ Answer.FileFault) (F.faults folder.old) (F.faults folder.new)
        × (C.steady console.old → ListingSuits listing (C.room console.old) → answer ≡ Answer.ConsoleFault → ⊥)
        × ((t : Tree) → F.tree folder.old ≡ Some t → F.steady folder.old → answer ≡ Answer.FileFault → ⊥)
        × ((t : Tree) → IsWellFormed t → F.tree folder.old ≡ Some t → HasFiles t (F.tree folder.new)
        × ((IsStop answer → ⊥) → F.tree folder.new ≡ Some t)) }

    // Else the program runs. On every answer there is one number of steps at which console, untaken input and files are
    // those of the direct run, which the report tells, and which the answer before the report speaks of, with its
    // cause; of the tree counts of opens too, unless the folder failed or there was no memory: then one may be more.
    // Steady objects fail no run. An input that no step asks for bytes is as it was, and so is a console on which none
    // puts any.
    ensures ran { (c : RunCase) → Asks words.now c (I.left input.old) (C.held console.old) (F.tree folder.old)
        → IsAnsweredRun F.Folder I.Source C.Sink c (outside folder.old input.old console.old)
        (outside folder.new input.new console.new) result (R.held report.old) (R.held report.new) }

    // A listing goes to the console by one put, which may fail; where the words or the file are refused, the folder fails
    // or there is no memory, the console is not called; and whatever is answered, there is one put at most. The report's
    // line is one put as well.
    ensures one_put { IsListing (command_of words.now) → (result ≡ Answer.Done) ⊎ (result ≡ Answer.ConsoleFault)
        → OnePut (C.puts console.old) (C.puts console.new) }
    ensures no_put { IsListing (command_of words.now) → IsRefusal result ⊎ IsStop result → console.new ≡ console.old }
    ensures at_most_one_put { IsListing (command_of words.now)
        → (console.new ≡ console.old) ⊎ OnePut (C.puts console.old) (C.puts console.new) }
    ensures one_line { (result ≡ Answer.Done → ⊥) → OnePut (R.puts report.old) (R.puts report.new) }

    // Each fault comes only where the count of that object rose in this call.
    ensures file_cause { RoseFor (result ≡ Answer.FileFault) (F.faults folder.old) (F.faults folder.new) }
    ensures input_cause { RoseFor (result ≡ Answer.InputFault) (I.faults input.old) (I.faults input.new) }
    ensures console_cause { RoseFor (result ≡ Answer.ConsoleFault) (C.faults console.old) (C.faults console.new) }
    ensures report_cause { RoseFor (result ≡ Answer.ReportFault) (R.faults report.old) (R.faults report.new) }

    // A steady folder whose tree is told and well formed, a steady input, and a steady report with room for a line fail
    // no command; a listing asks no more of the tree than that it is told.
    ensures file_steady { (t : Tree) → IsWellFormed t → F.tree folder.old ≡ Some t → F.steady folder.old
        → result ≡ Answer.FileFault → ⊥ }
    ensures listing_steady { IsListing (command_of words.now) → (t : Tree) → F.tree folder.old ≡ Some t
        → F.steady folder.old → result ≡ Answer.FileFault → ⊥ }
    ensures input_steady { I.steady input.old → result ≡ Answer.InputFault → ⊥ }
    ensures report_steady { R.steady report.old → PutSuits (R.room report.old) report_line_limit
        → result ≡ Answer.ReportFault → ⊥ }
{
    let ending = command(alloc, words, input, console, folder);
    put_report(ending, report)
}

// Does what the words ask for, but for the report.
fn command<I: Source, C: Sink, F: Folder>(
    alloc: Global,
    words: &Words,
    input: &mut I,
    console: &mut C,
    folder: &mut F,
) -> Ending
    ensures words { IsWordsRefusal result.answer → words_refusal words.now ≡ Some result.answer }
    ensures other_words { (a : Answer) → words_refusal words.now ≡ Some a
        → (result.answer ≡ a) × (input.new ≡ input.old) × (console.new ≡ console.old)
        × (result.steps ≡ first_count (command_of words.now)) }
    ensures untouched { NamesNone (command_of words.now) → folder.new ≡ folder.old }
    ensures early { IsRefusal result.answer → (input.new ≡ input.old) × (console.new ≡ console.old)
        × (result.steps ≡ first_count (command_of words.now)) }
    ensures refusal { (t : Tree) → IsWellFormed t → F.tree folder.old ≡ Some t → IsRefusal result.answer
        → plan_of words.now t ≡ refuse result.answer }
    ensures refused { (t : Tree) (a : Answer) → Plans words.now t (refuse a) (F.tree folder.old)
        → ((result.answer ≡ a) ⊎ IsStop result.answer) × (result.steps ≡ first_count (command_of words.now))
        × (input.new ≡ input.old) × (console.new ≡ console.old) × HasFiles t (F.tree folder.new)
        × ((IsStop result.answer → ⊥) → F.tree folder.new ≡ Some t) }
    ensures listed { (listing : Listing) → AsksListing words.now listing (F.tree folder.old)
        → Listed listing result.answer (C.held console.old) (C.held console.new)
        × (C.steady console.old → ListingSuits listing (C.room console.old) → result.answer ≡ Answer.ConsoleFault → ⊥) }
    ensures listed_files { IsListing (command_of words.now) → (t : Tree) → IsWellFormed t → F.tree folder.old ≡ Some t
        → HasFiles t (F.tree folder.new) × ((IsStop result.answer → ⊥) → F.tree folder.new ≡ Some t) }
    ensures listing_steady { IsListing (command_of words.now) → (t : Tree) → F.tree folder.old ≡ Some t
        → F.steady folder.old → result.answer ≡ Answer.FileFault → ⊥ }
    ensures listing { IsListing (command_of words.now) → (result.steps ≡ None) × (input.new ≡ input.old) }
    ensures counted { (limit : ℕ) → HasLimit words.now limit → (n : ℕ) × (result.steps ≡ Some n) × (n ≤ limit) }
    ensures done { result.answer ≡ Answer.Done → IsListing (command_of words.now)
        × GrewBy (MayPut (command_of words.now)) (C.held console.old) (C.held console.new) }
    ensures not_done { IsListing (command_of words.now) → (result.answer ≡ Answer.Done → ⊥)
        → IsKept (C.held console.old) (C.held console.new) }
    ensures one_put { IsListing (command_of words.now)
        → (result.answer ≡ Answer.Done) ⊎ (result.answer ≡ Answer.ConsoleFault)
        → OnePut (C.puts console.old) (C.puts console.new) }
    ensures no_put { IsListing (command_of words.now) → IsStop result.answer → console.new ≡ console.old }
    ensures at_most_one_put { IsListing (command_of words.now)
        → (console.new ≡ console.old) ⊎ OnePut (C.puts console.old) (C.puts console.new) }
    ensures ran { (c : RunCase) → Asks words.now c (I.left input.old) (C.held console.old) (F.tree folder.old)
        → (steps : ℕ) × (result.steps ≡ Some steps)
        × PlainRun c result.answer steps (I.left input.new) (C.held console.new) (F.tree folder.new)
        × IsTimely c result.answer steps
        × HasRunCauses F.Folder I.Source C.Sink (outside folder.old input.old console.old)
        (outside folder.new input.new console.new) result.answer steps
        × ConsoleSuits F.Folder I.Source C.Sink c console.old steps result.answer
        × LeavesUnasked F.Folder I.Source C.Sink c (outside folder.old input.old console.old)
        (outside folder.new input.new console.new) result.answer steps }
    ensures answers { MayAnswer (command_of words.now) result.answer }
    ensures no_report { result.answer ≡ Answer.ReportFault → ⊥ }
    ensures opens { (t : Tree) → IsWellFormed t → F.tree folder.old ≡ Some t
        → IsRefusal result.answer ⊎ IsListing (command_of words.now) → StaysOrOpens t (F.tree folder.new) }
    ensures formed { (t : Tree) → IsWellFormed t → F.tree folder.old ≡ Some t → StaysWellFormed (F.tree folder.new) }
    ensures too_long { (n : ℕ) → result.answer ≡ Answer.ArgsTooLong n → AreTooLong words.now n }
    ensures spent { (n : ℕ) → result.answer ≡ Answer.StepsSpent n → HasLimit words.now n × (result.steps ≡ Some n) }
    ensures console_cause { RoseFor (result.answer ≡ Answer.ConsoleFault) (C.faults console.old)
        (C.faults console.new) }
    ensures input_cause { RoseFor (result.answer ≡ Answer.InputFault) (I.faults input.old) (I.faults input.new) }
    ensures file_cause { RoseFor (result.answer ≡ Answer.FileFault) (F.faults folder.old) (F.faults folder.new) }
    ensures steady { (t : Tree) → IsWellFormed t → F.tree folder.old ≡ Some t → F.steady folder.old
        → result.answer ≡ Answer.FileFault → ⊥ }
    ensures input_steady { I.steady input.old → result.answer ≡ Answer.InputFault → ⊥ }
{
    let asked = read_command(words);
    match make_plan(alloc, words, asked, folder) {
        Ok(Plan::Refuse(answer)) => Ending {
            answer,
            steps: first_count(asked),
        },
        Ok(Plan::Put(text)) => Ending {
            answer: put_listing(&text, console),
            steps: None,
        },
        Ok(
            Plan::Run {
                image,
                args,
                root,
                limit,
            },
        ) => {
            let end = run_program(alloc, image, &args, root, limit, input, console, folder);
            Ending {
                answer: end.answer,
                steps: Some(end.steps),
            }
        }
        Err(Stop::FileFault) => Ending {
            answer: Answer::FileFault,
            steps: first_count(asked),
        },
        Err(Stop::OutOfMemory) => Ending {
            answer: Answer::OutOfMemory,
            steps: first_count(asked),
        },
    }
}

// Puts a listing's text on the console. Where it can't be put, the console is as it was.
fn put_listing<C: Sink>(text: &Bytes, console: &mut C) -> Answer
    ensures answers { (result ≡ Answer.Done) ⊎ (result ≡ Answer.ConsoleFault) }
    ensures done { result ≡ Answer.Done → (held : List ℕ) → C.held console.old ≡ Some held
        → C.held console.new ≡ Some (held ++ text.now) }
    ensures kept { (result ≡ Answer.Done → ⊥) → IsKept (C.held console.old) (C.held console.new) }
    ensures one_put { OnePut (C.puts console.old) (C.puts console.new) }
    ensures cause { RoseFor (result ≡ Answer.ConsoleFault) (C.faults console.old) (C.faults console.new) }
    ensures steady { C.steady console.old → PutSuits (C.room console.old) (length text.now)
        → result ≡ Answer.ConsoleFault → ⊥ }
{
    match console.put(text.as_slice()) {
        Ok(()) => Answer::Done,
        Err(_) => Answer::ConsoleFault,
    }
}

// The report's last line, if the answer has one. Where it can't be put, the report is as it was, and that is the
// answer.
fn put_report<R: Sink>(ending: Ending, report: &mut R) -> Answer
    requires { ending.answer ≡ Answer.ReportFault → ⊥ }
    ensures said { IsSaid ending.answer result }
    ensures done { ending.answer ≡ Answer.Done → (result ≡ Answer.Done) × (report.new ≡ report.old) }
    ensures one_line { (ending.answer ≡ Answer.Done → ⊥) → OnePut (R.puts report.old) (R.puts report.new) }
    ensures reported { Reported result ending.steps (R.held report.old) (R.held report.new) }
    ensures cause { RoseFor (result ≡ Answer.ReportFault) (R.faults report.old) (R.faults report.new) }
    ensures steady { R.steady report.old → PutSuits (R.room report.old) report_line_limit → result ≡ ending.answer }
{
    if let Answer::Done = ending.answer {
        return Answer::Done;
    }
    let line = line_of(ending.answer, ending.steps);
    match report.put(line.as_str().as_bytes()) {
        Ok(()) => ending.answer,
        Err(_) => Answer::ReportFault,
    }
}
