// The row that opens a file: openat, of a path that stands below the root.
ghost use Rattle.std.specs.Prelude.{◌≡◌, slice_set, true};
ghost use Rattle.syscall_proxy.specs.Follows.{Follows, Same};
ghost use Rattle.syscall_proxy.specs.PathRows.{create_file, directory_value, new_file, open_found, open_kind, open_path};

use crate::calls::Calls;
use crate::flags::OpenFlags;
use crate::objects::Objects;
use crate::{CallAnswer, CallFault, outside};
use chunk_memory::ChunkPort;
use fe_base::{ErrNo, Sink, Source};
use folder_tree::{Folder, Path, PathKind};
use host_text::{Open, OpenFile};

// The file of this number, opened so.
fn file_of(flags: OpenFlags, number: u64) -> OpenFile
    ensures { result ≡ new_file number flags.0 }
{
    OpenFile {
        number,
        position: 0,
        reads: flags.reads(),
        writes: flags.writes(),
        appends: flags.appends(),
    }
}

impl Calls {
    // The file stands at the number from now on, which is the answer.
    fn opened(&mut self, fd: u32, number: u64, flags: OpenFlags) -> CallAnswer
        ensures value { result ≡ CallAnswer.Result fd }
        ensures acted { self.new.acted ≡ true }
        ensures numbers { self.new.numbers ≡ slice_set self.old.numbers fd (Open.File (new_file number flags.0)) }
    {
        self.acted = true;
        self.numbers.set(fd, Open::File(file_of(flags, number)));
        CallAnswer::Result(fd as u64)
    }

    fn create_file<P: ChunkPort, F: Folder, I: Source, C: Sink>(
        &mut self,
        objects: &mut Objects<'_, '_, '_, '_, P, F, I, C>,
        fd: u32,
        path: &Path,
        flags: OpenFlags,
    ) -> Result<CallAnswer, CallFault>
        requires usable { P.usable objects.old.mem.now }
        ensures usable { P.usable objects.new.mem.now }
        ensures lent { Same objects.old objects.new }
        ensures played { Follows P.ChunkPort F.Folder I.Source C.Sink (create_file fd path.now flags.0)
            objects.old self.old result objects.new self.new }
    {
        if !flags.creates() {
            return Ok(self.refuse(ErrNo::ENOENT));
        }
        let number = outside::create(objects.folder, path)?;
        Ok(self.opened(fd, number, flags))
    }

    fn open_found<P: ChunkPort, F: Folder, I: Source, C: Sink>(
        &mut self,
        objects: &mut Objects<'_, '_, '_, '_, P, F, I, C>,
        fd: u32,
        path: &Path,
        flags: OpenFlags,
    ) -> Result<CallAnswer, CallFault>
        requires usable { P.usable objects.old.mem.now }
        ensures usable { P.usable objects.new.mem.now }
        ensures lent { Same objects.old objects.new }
        ensures played { Follows P.ChunkPort F.Folder I.Source C.Sink (open_found fd path.now flags.0)
            objects.old self.old result objects.new self.new }
    {
        if flags.wants_new() {
            return Ok(self.refuse(ErrNo::EEXIST));
        }
        let number = outside::open_file(objects.folder, path)?;
        if flags.cuts() {
            outside::set_size(objects.folder, number, 0)?;
            return Ok(self.opened(fd, number, flags));
        }
        Ok(self.opened(fd, number, flags))
    }

    // The answer of openat of a directory.
    fn open_directory(&mut self, flags: OpenFlags) -> CallAnswer
        ensures value { result ≡ CallAnswer.Result (directory_value flags.0) }
        ensures acted { self.new.acted ≡ true }
        ensures numbers { self.new.numbers ≡ self.old.numbers }
    {
        if flags.wants_new() {
            return self.refuse(ErrNo::EEXIST);
        }
        self.refuse(ErrNo::EISDIR)
    }

    fn open_kind<P: ChunkPort, F: Folder, I: Source, C: Sink>(
        &mut self,
        objects: &mut Objects<'_, '_, '_, '_, P, F, I, C>,
        kind: PathKind,
        fd: u32,
        path: &Path,
        flags: OpenFlags,
    ) -> Result<CallAnswer, CallFault>
        requires usable { P.usable objects.old.mem.now }
        ensures usable { P.usable objects.new.mem.now }
        ensures lent { Same objects.old objects.new }
        ensures played { Follows P.ChunkPort F.Folder I.Source C.Sink (open_kind kind fd path.now flags.0)
            objects.old self.old result objects.new self.new }
    {
        match kind {
            PathKind::UnderFile => Ok(self.refuse(ErrNo::ENOTDIR)),
            PathKind::NoParent => Ok(self.refuse(ErrNo::ENOENT)),
            PathKind::Free => self.create_file(objects, fd, path, flags),
            PathKind::Directory => Ok(self.open_directory(flags)),
            PathKind::File => self.open_found(objects, fd, path, flags),
        }
    }

    /// openat, 56, of a path that stands below the root.
    pub(crate) fn open<P: ChunkPort, F: Folder, I: Source, C: Sink>(
        &mut self,
        objects: &mut Objects<'_, '_, '_, '_, P, F, I, C>,
        path: &Path,
        flags: OpenFlags,
    ) -> Result<CallAnswer, CallFault>
        requires usable { P.usable objects.old.mem.now }
        ensures usable { P.usable objects.new.mem.now }
        ensures lent { Same objects.old objects.new }
        ensures played { Follows P.ChunkPort F.Folder I.Source C.Sink (open_path self.old.numbers path.now flags.0)
            objects.old self.old result objects.new self.new }
    {
        if flags.is_invalid() {
            return Ok(self.refuse(ErrNo::EINVAL));
        }
        match self.numbers.first_free() {
            None => Ok(self.refuse(ErrNo::EMFILE)),
            Some(fd) => {
                let kind = outside::kind(objects.folder, path)?;
                self.open_kind(objects, kind, fd, path, flags)
            }
        }
    }
}
