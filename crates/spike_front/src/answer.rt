// What the program answers, and the status of the process that tells it.
ghost use Rattle.std.specs.Prelude.{◌≡◌};

use elf_loader::ElfFault;

/// How a command line was answered.
#[derive(Clone, Copy, Debug, PartialEq, Eq)]
pub enum Answer {
    /// The listing was put on the console.
    Done,
    /// The program ended by itself, with this status.
    Exited(u8),
    /// The words fail: the number of how, and the index of the word that does, or the number of words where one is
    /// missing.
    Usage(u8, u64),
    /// The word names no file of the folder.
    NoProgram,
    /// The file has this fault.
    BadElf(ElfFault),
    /// The word of `--folder` names no directory of the folder.
    NoFolder,
    /// The arguments would take so many bytes on the program's stack, which is more than 65,536.
    ArgsTooLong(u64),
    /// The line of the assembly text has a fault of this kind, or the file is too large: kind 9 at line 0.
    BadAsm(u64, u8),
    /// So many steps were made, which is the limit, and the program has not ended.
    StepsSpent(u64),
    /// The folder failed.
    FileFault,
    /// The input failed.
    InputFault,
    /// The console failed.
    ConsoleFault,
    /// The report's last line could not be put.
    ReportFault,
    /// There was no memory.
    OutOfMemory,
    /// 1: the words name a command that is not built.
    NotBuilt(u8),
}

impl Answer {
    ghost use Rattle.spike_front.specs.Report.{code_of};

    /// The status with which the process ends.
    pub fn code(&self) -> u8
        ensures { result ≡ code_of self.now }
    {
        match self {
            Answer::Done => 0,
            Answer::Exited(status) => *status,
            Answer::Usage(_, _) => 64,
            Answer::NoProgram => 65,
            Answer::BadElf(_) => 66,
            Answer::NoFolder => 67,
            Answer::ArgsTooLong(_) => 68,
            Answer::FileFault => 70,
            Answer::InputFault => 71,
            Answer::ConsoleFault => 72,
            Answer::ReportFault => 73,
            Answer::OutOfMemory => 74,
            Answer::BadAsm(_, _) => 75,
            Answer::NotBuilt(_) => 77,
            Answer::StepsSpent(_) => 78,
        }
    }
}
