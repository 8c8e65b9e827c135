// What the words ask for, judged before anything is put or run.
ghost use Rattle.std.specs.Prelude.{◌≡◌, ◌≤◌, ◌<◌, IfOk, IfSome, OnErr, IsErrOf, Some, Ok, Err};
ghost use Rattle.std.specs.Prelude.{drop, length, slice_index_or};
ghost use Rattle.elf_loader.specs.ElfFile.{IsFit, fault_of};
ghost use Rattle.elf_loader.specs.Rules.{user_rules};
ghost use Rattle.folder_tree.specs.Paths.{path_text};
ghost use Rattle.folder_tree.specs.Tree.{Tree, IsWellFormed};
ghost use Rattle.fe_base.specs.Limits.{assembly_file_limit, path_text_limit};
ghost use Rattle.asm_text.specs.Texts.{text_items};
ghost use Rattle.plain_machine.specs.Stands.{HasFiles};
ghost use Rattle.spike_front.specs.Causes.{RoseFor};
ghost use Rattle.spike_front.specs.FoundFiles.{StaysOrOpens};
ghost use Rattle.spike_front.specs.Plans.{FitsPlan, IsPlan, IsPlanFor, IsProgramPlan, IsSourcePlan, NamesNone};
ghost use Rattle.spike_front.specs.Plans.{answer_of_fault, folder_word, named_file, named_folder, plan_of};
ghost use Rattle.spike_front.specs.Plans.{planned_args, planned_image, planned_run, planned_source, planned_text};
ghost use Rattle.spike_front.specs.Words.{IsSound, command_of};
ghost use Rattle.spike_front.specs.declared.words.WordFault.{WordFault};

use crate::answer::Answer;
use crate::directory::find_directory;
use crate::file::{FoundFile, Stop, find_named};
use crate::listing::{kernel_text, word_lines};
use crate::words::{Command, WordFault};
use asm_items::{AsmFault, assemble};
use asm_text::{Lines, TextFault, read_asm};
use elf_loader::{ElfFault, ElfStop, Image, main_vars_len, read_elf};
use fe_base::limits::{ASSEMBLY_FILE_LIMIT, ELF_FILE_LIMIT, MAIN_VARS_LIMIT};
use fe_base::{Bytes, Words};
use folder_tree::{Folder, Path};
use std::alloc::{AllocError, Global};

/// What is done for the words.
#[derive(Drop)]
pub enum Plan {
    /// Nothing is put or run, and this is the answer.
    Refuse(Answer),
    /// This text is put on the console.
    Put(Bytes),
    /// The program of this image is run with these arguments, its paths standing under this root, for so many steps at
    /// most.
    Run {
        image: Image,
        args: Words,
        root: Path,
        limit: u64,
    },
}

impl WordFault {
    ghost use Rattle.spike_front.specs.Plans.{answer_of_fault};

    // How the words are answered.
    fn answer(self) -> Answer
        ensures { result ≡ answer_of_fault self }
    {
        match self {
            WordFault::Usage(kind, place) => Answer::Usage(kind.number(), place),
            WordFault::NotBuilt => Answer::NotBuilt(1),
        }
    }
}

// A copy of the words from this index on.
fn words_from(alloc: Global, words: &Words, from: usize) -> Result<Words, AllocError>
    requires { from ≤ length words.now }
    ensures { IfOk result (λ copy. copy ≡ drop from words.now) }
{
    let mut copy = Words::new(alloc);
    for i in from..words.len() {
        copy.push(words.word(i))?;
    }
    Ok(copy)
}

// The text of DIR, which stands at the index; with no bytes, where there is none, it names the folder's root.
fn folder_word(words: &Words, folder: Option<usize>) -> &str
    requires { IfSome folder (λ place. place < length words.now) }
    ensures { result.now ≡ folder_word folder words.now }
{
    match folder {
        Some(place) => words.word(place),
        None => "",
    }
}

// What is done with an image that may be run under a root, where its arguments begin at the index.
fn plan_args(
    alloc: Global,
    words: &Words,
    file: usize,
    limit: u64,
    image: Image,
    root: Path,
) -> Result<Plan, Stop>
    requires file { file ≤ length words.now }
    requires fit { IsFit user_rules image }
    requires root { length (path_text root) ≤ path_text_limit }
    ensures told { IfOk result (λ plan. IsPlan plan (planned_args image (drop file words.now) root limit)) }
    ensures kind { IfOk result (IsProgramPlan (drop file words.now) limit) }
    ensures memory { OnErr result (result ≡ Err Stop.OutOfMemory) }
{
    let args = words_from(alloc, words, file)?;
    let needed = main_vars_len(&args);
    if needed > MAIN_VARS_LIMIT {
        return Ok(Plan::Refuse(Answer::ArgsTooLong(needed)));
    }
    Ok(Plan::Run {
        image,
        args,
        root,
        limit,
    })
}

// What is done with the bytes of the file that the word at the index names.
fn plan_image<F: Folder>(
    alloc: Global,
    words: &Words,
    limit: u64,
    under: Option<usize>,
    file: usize,
    bytes: &[u8],
    folder: &mut F,
) -> Result<Plan, Stop>
    requires file { file ≤ length words.now }
    requires under { IfSome under (λ place. place < length words.now) }
    ensures told { IfOk result (λ plan. (t : Tree) → F.tree folder.old ≡ Some t
        → IsPlan plan (planned_image limit (named_folder under words.now t) (drop file words.now) bytes.now
        (fault_of bytes.now))) }
    ensures kind { IfOk result (IsProgramPlan (drop file words.now) limit) }
    ensures tree { (t : Tree) → F.tree folder.old ≡ Some t → F.tree folder.new ≡ Some t }
    ensures cause { RoseFor (IsErrOf result Stop.FileFault) (F.faults folder.old) (F.faults folder.new) }
    ensures short { F.short folder.old ≤ F.short folder.new }
    ensures steady { (t : Tree) → F.tree folder.old ≡ Some t → F.steady folder.old
        → (IsErrOf result Stop.FileFault → ⊥) × F.steady folder.new }
{
    let image = match read_elf(alloc, bytes) {
        Ok(image) => image,
        Err(ElfStop::Bad(fault)) => return Ok(Plan::Refuse(Answer::BadElf(fault))),
        Err(ElfStop::OutOfMemory) => return Err(Stop::OutOfMemory),
    };
    match find_directory(folder, folder_word(words, under))? {
        Some(root) => plan_args(alloc, words, file, limit, image, root),
        None => Ok(Plan::Refuse(Answer::NoFolder)),
    }
}

// What is done for the file that the word at the index names.
fn plan_run<F: Folder>(
    alloc: Global,
    words: &Words,
    limit: u64,
    under: Option<usize>,
    file: usize,
    folder: &mut F,
) -> Result<Plan, Stop>
    requires file { file < length words.now }
    requires under { IfSome under (λ place. place < length words.now) }
    ensures told { IfOk result (λ plan. (t : Tree) → IsWellFormed t → F.tree folder.old ≡ Some t
        → IsPlan plan (planned_run limit under file words.now t) × (F.tree folder.new ≡ Some t)) }
    ensures files { (t : Tree) → F.tree folder.old ≡ Some t → HasFiles t (F.tree folder.new) }
    ensures opens { (t : Tree) → IsWellFormed t → F.tree folder.old ≡ Some t → StaysOrOpens t (F.tree folder.new) }
    ensures kind { IfOk result (IsProgramPlan (drop file words.now) limit) }
    ensures cause { RoseFor (IsErrOf result Stop.FileFault) (F.faults folder.old) (F.faults folder.new) }
    ensures short { F.short folder.old ≤ F.short folder.new }
    ensures steady { (t : Tree) → F.tree folder.old ≡ Some t → F.steady folder.old
        → (IsErrOf result Stop.FileFault → ⊥) × F.steady folder.new }
{
    match find_named(alloc, folder, words.word(file), ELF_FILE_LIMIT)? {
        FoundFile::Missing => Ok(Plan::Refuse(Answer::NoProgram)),
        FoundFile::TooLarge => Ok(Plan::Refuse(Answer::BadElf(ElfFault::TooLarge))),
        FoundFile::Bytes(bytes) => plan_image(alloc, words, limit, under, file, &bytes, folder),
    }
}

// The line of an item.
fn item_line(lines: &Lines, item: u64) -> u64
    ensures { result ≡ slice_index_or lines.now item 0 }
{
    match lines.as_slice().get(item as usize) {
        Some(line) => *line,
        None => 0,
    }
}

// What is done with assembly text.
fn plan_text(alloc: Global, text: &[u8]) -> Result<Plan, Stop>
    requires { length text.now ≤ assembly_file_limit }
    ensures told { IfOk result (λ plan. IsPlan plan (planned_text (text_items text.now))) }
    ensures kind { IfOk result IsSourcePlan }
    ensures memory { OnErr result (result ≡ Err Stop.OutOfMemory) }
{
    let found = match read_asm(alloc, text) {
        Ok(found) => found,
        Err(TextFault::At { line, kind }) => {
            return Ok(Plan::Refuse(Answer::BadAsm(line, kind.number())));
        }
        Err(TextFault::OutOfMemory) => return Err(Stop::OutOfMemory),
    };
    match assemble(alloc, found.items.as_slice(), 0) {
        Ok(code) => Ok(Plan::Put(word_lines(alloc, code.bytes.as_slice())?)),
        Err(AsmFault::UnknownLabel(item)) => {
            Ok(Plan::Refuse(Answer::BadAsm(item_line(&found.lines, item), 6)))
        }
        Err(AsmFault::LabelTwice(item)) => {
            Ok(Plan::Refuse(Answer::BadAsm(item_line(&found.lines, item), 7)))
        }
        Err(AsmFault::OutOfReach(item)) => {
            Ok(Plan::Refuse(Answer::BadAsm(item_line(&found.lines, item), 8)))
        }
        Err(AsmFault::OutOfMemory) => Err(Stop::OutOfMemory),
    }
}

// What is done for the assembly file that the word at the index names.
fn plan_asm<F: Folder>(
    alloc: Global,
    words: &Words,
    file: usize,
    folder: &mut F,
) -> Result<Plan, Stop>
    requires { file < length words.now }
    ensures told { IfOk result (λ plan. (t : Tree) → IsWellFormed t → F.tree folder.old ≡ Some t
        → IsPlan plan (planned_source (named_file file words.now t)) × (F.tree folder.new ≡ Some t)) }
    ensures kind { IfOk result IsSourcePlan }
    ensures files { (t : Tree) → F.tree folder.old ≡ Some t → HasFiles t (F.tree folder.new) }
    ensures opens { (t : Tree) → IsWellFormed t → F.tree folder.old ≡ Some t → StaysOrOpens t (F.tree folder.new) }
    ensures cause { RoseFor (IsErrOf result Stop.FileFault) (F.faults folder.old) (F.faults folder.new) }
    ensures short { F.short folder.old ≤ F.short folder.new }
    ensures steady { (t : Tree) → F.tree folder.old ≡ Some t → F.steady folder.old
        → (IsErrOf result Stop.FileFault → ⊥) × F.steady folder.new }
{
    match find_named(alloc, folder, words.word(file), ASSEMBLY_FILE_LIMIT)? {
        FoundFile::Missing => Ok(Plan::Refuse(Answer::NoProgram)),
        FoundFile::TooLarge => Ok(Plan::Refuse(Answer::BadAsm(0, 9))),
        FoundFile::Bytes(text) => plan_text(alloc, &text),
    }
}

/// What is done for these words and what was read of them.
pub fn make_plan<F: Folder>(
    alloc: Global,
    words: &Words,
    asked: Result<Command, WordFault>,
    folder: &mut F,
) -> Result<Plan, Stop>
    requires asked { asked ≡ command_of words.now }
    requires sound { IfOk asked (IsSound (length words.now)) }
    ensures kind { IfOk result (IsPlanFor asked words.now) }
    ensures fits { IfOk result FitsPlan }
    ensures refused { (fault : WordFault) → asked ≡ Err fault → result ≡ Ok (Plan.Refuse (answer_of_fault fault)) }
    ensures told { IfOk result (λ plan. (t : Tree) → IsWellFormed t → F.tree folder.old ≡ Some t
        → IsPlan plan (plan_of words.now t) × (F.tree folder.new ≡ Some t)) }
    ensures untouched { NamesNone asked → (IsErrOf result Stop.FileFault → ⊥) × (folder.new ≡ folder.old) }
    ensures files { (t : Tree) → F.tree folder.old ≡ Some t → HasFiles t (F.tree folder.new) }
    ensures opens { (t : Tree) → IsWellFormed t → F.tree folder.old ≡ Some t → StaysOrOpens t (F.tree folder.new) }
    ensures cause { RoseFor (IsErrOf result Stop.FileFault) (F.faults folder.old) (F.faults folder.new) }
    ensures short { F.short folder.old ≤ F.short folder.new }
    ensures steady { (t : Tree) → F.tree folder.old ≡ Some t → F.steady folder.old
        → (IsErrOf result Stop.FileFault → ⊥) × F.steady folder.new }
{
    match asked {
        Ok(
            Command::Plain {
                limit,
                folder: under,
                file,
            },
        ) => plan_run(alloc, words, limit, under, file, folder),
        Ok(Command::Kernel) => Ok(Plan::Put(kernel_text(alloc)?)),
        Ok(Command::Asm { file }) => plan_asm(alloc, words, file, folder),
        Err(fault) => Ok(Plan::Refuse(fault.answer())),
    }
}
