// A request of the guest, carried out by its number.
ghost use Rattle.std.specs.Prelude.{◌≡◌, ◌%◌, true};
ghost use Rattle.syscall_proxy.specs.CallTable.{call_row};
ghost use Rattle.syscall_proxy.specs.Follows.{Follows, Same};
ghost use Rattle.syscall_proxy.specs.OpenFlags.{has};
ghost use Rattle.syscall_proxy.specs.PathRows.{at_path, named_row};
ghost use Rattle.syscall_proxy.specs.Rows.{bounded, low, word};

use crate::calls::Calls;
use crate::flags::OpenFlags;
use crate::objects::Objects;
use crate::path_rows::PathCall;
use crate::service::{Service, service_for};
use crate::setting::Setting;
use crate::{CallAnswer, CallFault};
use chunk_memory::ChunkPort;
use fe_base::limits::TRANSFER_LIMIT;
use fe_base::{ErrNo, Sink, Source};
use folder_tree::Folder;

// The low 32 bits of a word.
fn low_half(word: u64) -> u32
    ensures { result ≡ low word }
{
    (word % (1 << 32)) as u32
}

// A count, lowered to what one call moves at most.
fn count_of(word: u64) -> usize
    ensures { result ≡ bounded word }
{
    word.min(TRANSFER_LIMIT) as usize
}

// unlinkat removes a directory (AT_REMOVEDIR).
fn asks_for_directory(flags: u32) -> bool
    ensures { result ≡ has flags 0x200 }
{
    flags & 0x200 == 0x200
}

impl Calls {
    // The call acts, and the program ends by its status' low 8 bits.
    fn exit(&mut self, status: u64) -> CallAnswer
        ensures value { result ≡ CallAnswer.Exit (status % 256) }
        ensures acted { self.new.acted ≡ true }
        ensures numbers { self.new.numbers ≡ self.old.numbers }
    {
        self.acted = true;
        CallAnswer::Exit((status % 256) as u8)
    }

    // A call of a path, by its request.
    fn path<P: ChunkPort, F: Folder, I: Source, C: Sink>(
        &mut self,
        objects: &mut Objects<'_, '_, '_, '_, P, F, I, C>,
        setting: &Setting,
        call: PathCall,
        request: &[u64; 8],
    ) -> Result<CallAnswer, CallFault>
        requires usable { P.usable objects.old.mem.now }
        ensures usable { P.usable objects.new.mem.now }
        ensures lent { Same objects.old objects.new }
        ensures played { Follows P.ChunkPort F.Folder I.Source C.Sink
            (at_path (low (word request.now 1)) (word request.now 2) (word request.now 3)
            (named_row call self.old.numbers setting.now.root))
            objects.old self.old result objects.new self.new }
    {
        let dirfd = low_half(request[1]);
        self.path_call(objects, setting, call, dirfd, request[2], request[3])
    }

    /// The call of a request.
    pub(crate) fn dispatch<P: ChunkPort, F: Folder, I: Source, C: Sink>(
        &mut self,
        objects: &mut Objects<'_, '_, '_, '_, P, F, I, C>,
        setting: &Setting,
        request: &[u64; 8],
    ) -> Result<CallAnswer, CallFault>
        requires usable { P.usable objects.old.mem.now }
        ensures usable { P.usable objects.new.mem.now }
        ensures lent { Same objects.old objects.new }
        ensures played { Follows P.ChunkPort F.Folder I.Source C.Sink (call_row setting.now self.old.numbers request.now)
            objects.old self.old result objects.new self.new }
    {
        let fd = low_half(request[1]);
        let count = count_of(request[3]);
        match service_for(request[0]) {
            Service::MakeDir => self.path(objects, setting, PathCall::MakeDir, request),
            Service::Unlink => {
                let dir = asks_for_directory(low_half(request[4]));
                self.path(objects, setting, PathCall::Unlink(dir), request)
            }
            Service::Truncate => self.truncate(objects, fd, request[2]),
            Service::Access => self.path(objects, setting, PathCall::Access, request),
            Service::OpenAt => {
                let flags = OpenFlags(low_half(request[4]));
                self.path(objects, setting, PathCall::Open(flags), request)
            }
            Service::Close => self.close(objects, fd),
            Service::Seek => self.lseek(objects, fd, request[2], low_half(request[3])),
            Service::Read => self.read(objects, fd, request[2], count),
            Service::Write => self.write(objects, fd, request[2], count),
            Service::ReadPlace => self.pread(objects, fd, request[2], count, request[4]),
            Service::WritePlace => self.pwrite(objects, fd, request[2], count, request[4]),
            Service::Stat => self.stat(objects, fd, request[2]),
            Service::Exit => Ok(self.exit(request[1])),
            Service::MainVars => self.main_vars(objects, setting, request[1], request[2]),
            Service::Unknown => Ok(self.refuse(ErrNo::ENOSYS)),
        }
    }
}
