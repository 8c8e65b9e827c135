// The rows that take a path: mkdirat, unlinkat, faccessat and, in `open_rows`, openat.
ghost use Rattle.std.specs.Prelude.{◌≡◌, ◌≤◌, ◌==◌, ◌||◌, nat_lt, length, true};
ghost use Rattle.fe_base.specs.Limits.{guest_path_limit};
ghost use Rattle.folder_tree.specs.Paths.{path_text};
ghost use Rattle.syscall_proxy.specs.Follows.{Follows, Same};
ghost use Rattle.syscall_proxy.specs.PathRows.{access_path, access_value, at_path, make_dir_kind, make_dir_path, named_row, remove_dir_at, unlink_kind, unlink_path};

use crate::calls::Calls;
use crate::flags::OpenFlags;
use crate::objects::Objects;
use crate::path_rules::guest_path;
use crate::setting::Setting;
use crate::{CallAnswer, CallFault, outside};
use chunk_memory::ChunkPort;
use fe_base::limits::GUEST_PATH_LIMIT;
use fe_base::{ErrNo, Sink, Source};
use folder_tree::{Folder, Path, PathKind};

/// A call that takes a path, with what it takes besides.
#[derive(Clone, Copy)]
pub(crate) enum PathCall {
    MakeDir,
    /// With AT_REMOVEDIR or without.
    Unlink(bool),
    Access,
    Open(OpenFlags),
}

// No path has so many bytes.
fn is_no_path(count: u64) -> bool
    ensures { result ≡ (count == 0 || nat_lt guest_path_limit count) }
{
    count == 0 || count > GUEST_PATH_LIMIT
}

impl Calls {
    /// A call of a path that stands in the guest's memory.
    pub(crate) fn path_call<P: ChunkPort, F: Folder, I: Source, C: Sink>(
        &mut self,
        objects: &mut Objects<'_, '_, '_, '_, P, F, I, C>,
        setting: &Setting,
        call: PathCall,
        dirfd: u32,
        place: u64,
        count: u64,
    ) -> Result<CallAnswer, CallFault>
        requires usable { P.usable objects.old.mem.now }
        ensures usable { P.usable objects.new.mem.now }
        ensures lent { Same objects.old objects.new }
        ensures played { Follows P.ChunkPort F.Folder I.Source C.Sink
            (at_path dirfd place count (named_row call self.old.numbers setting.now.root))
            objects.old self.old result objects.new self.new }
    {
        if is_no_path(count) {
            return Ok(self.refuse(ErrNo::EINVAL));
        }
        self.buffer.read(objects.mem, place, count as usize)?;
        match guest_path(dirfd, self.buffer.as_slice()) {
            Ok(path) => self.named_path(objects, setting, call, &path),
            Err(error) => Ok(self.refuse(error)),
        }
    }

    fn named_path<P: ChunkPort, F: Folder, I: Source, C: Sink>(
        &mut self,
        objects: &mut Objects<'_, '_, '_, '_, P, F, I, C>,
        setting: &Setting,
        call: PathCall,
        path: &Path,
    ) -> Result<CallAnswer, CallFault>
        requires usable { P.usable objects.old.mem.now }
        requires short { length (path_text path.now) ≤ 4095 }
        ensures usable { P.usable objects.new.mem.now }
        ensures lent { Same objects.old objects.new }
        ensures played { Follows P.ChunkPort F.Folder I.Source C.Sink
            (named_row call self.old.numbers setting.now.root path.now)
            objects.old self.old result objects.new self.new }
    {
        let place = setting.place(path);
        match call {
            PathCall::MakeDir => self.make_dir(objects, &place),
            PathCall::Unlink(dir) => self.unlink(objects, dir, path, &place),
            PathCall::Access => self.access(objects, &place),
            PathCall::Open(flags) => self.open(objects, &place, flags),
        }
    }

    // mkdirat, 34
    fn make_dir<P: ChunkPort, F: Folder, I: Source, C: Sink>(
        &mut self,
        objects: &mut Objects<'_, '_, '_, '_, P, F, I, C>,
        path: &Path,
    ) -> Result<CallAnswer, CallFault>
        requires usable { P.usable objects.old.mem.now }
        ensures usable { P.usable objects.new.mem.now }
        ensures lent { Same objects.old objects.new }
        ensures played { Follows P.ChunkPort F.Folder I.Source C.Sink (make_dir_path path.now)
            objects.old self.old result objects.new self.new }
    {
        let kind = outside::kind(objects.folder, path)?;
        self.make_dir_by(objects, kind, path)
    }

    fn make_dir_by<P: ChunkPort, F: Folder, I: Source, C: Sink>(
        &mut self,
        objects: &mut Objects<'_, '_, '_, '_, P, F, I, C>,
        kind: PathKind,
        path: &Path,
    ) -> Result<CallAnswer, CallFault>
        requires usable { P.usable objects.old.mem.now }
        ensures usable { P.usable objects.new.mem.now }
        ensures lent { Same objects.old objects.new }
        ensures played { Follows P.ChunkPort F.Folder I.Source C.Sink (make_dir_kind kind path.now)
            objects.old self.old result objects.new self.new }
    {
        match kind {
            PathKind::UnderFile => Ok(self.refuse(ErrNo::ENOTDIR)),
            PathKind::NoParent => Ok(self.refuse(ErrNo::ENOENT)),
            PathKind::Directory => Ok(self.refuse(ErrNo::EEXIST)),
            PathKind::File => Ok(self.refuse(ErrNo::EEXIST)),
            PathKind::Free => {
                outside::make_dir(objects.folder, path)?;
                Ok(self.done(0))
            }
        }
    }

    // unlinkat, 35, of a path that stands at this place
    fn unlink<P: ChunkPort, F: Folder, I: Source, C: Sink>(
        &mut self,
        objects: &mut Objects<'_, '_, '_, '_, P, F, I, C>,
        dir: bool,
        path: &Path,
        place: &Path,
    ) -> Result<CallAnswer, CallFault>
        requires usable { P.usable objects.old.mem.now }
        ensures usable { P.usable objects.new.mem.now }
        ensures lent { Same objects.old objects.new }
        ensures played { Follows P.ChunkPort F.Folder I.Source C.Sink (unlink_path dir path.now place.now)
            objects.old self.old result objects.new self.new }
    {
        let kind = outside::kind(objects.folder, place)?;
        self.unlink_by(objects, kind, dir, path, place)
    }

    fn unlink_by<P: ChunkPort, F: Folder, I: Source, C: Sink>(
        &mut self,
        objects: &mut Objects<'_, '_, '_, '_, P, F, I, C>,
        kind: PathKind,
        dir: bool,
        path: &Path,
        place: &Path,
    ) -> Result<CallAnswer, CallFault>
        requires usable { P.usable objects.old.mem.now }
        ensures usable { P.usable objects.new.mem.now }
        ensures lent { Same objects.old objects.new }
        ensures played { Follows P.ChunkPort F.Folder I.Source C.Sink (unlink_kind kind dir path.now place.now)
            objects.old self.old result objects.new self.new }
    {
        match kind {
            PathKind::UnderFile => Ok(self.refuse(ErrNo::ENOTDIR)),
            PathKind::NoParent => Ok(self.refuse(ErrNo::ENOENT)),
            PathKind::Free => Ok(self.refuse(ErrNo::ENOENT)),
            PathKind::Directory => {
                if dir {
                    return self.remove_dir(objects, path, place);
                }
                Ok(self.refuse(ErrNo::EISDIR))
            }
            PathKind::File => {
                if dir {
                    return Ok(self.refuse(ErrNo::ENOTDIR));
                }
                outside::remove(objects.folder, place)?;
                Ok(self.done(0))
            }
        }
    }

    fn remove_dir<P: ChunkPort, F: Folder, I: Source, C: Sink>(
        &mut self,
        objects: &mut Objects<'_, '_, '_, '_, P, F, I, C>,
        path: &Path,
        place: &Path,
    ) -> Result<CallAnswer, CallFault>
        requires usable { P.usable objects.old.mem.now }
        ensures usable { P.usable objects.new.mem.now }
        ensures lent { Same objects.old objects.new }
        ensures played { Follows P.ChunkPort F.Folder I.Source C.Sink (remove_dir_at path.now place.now)
            objects.old self.old result objects.new self.new }
    {
        if path.text().is_empty() {
            return Ok(self.refuse(ErrNo::EINVAL));
        }
        let gone = outside::remove_dir(objects.folder, place)?;
        if gone {
            return Ok(self.done(0));
        }
        Ok(self.refuse(ErrNo::ENOTEMPTY))
    }

    // faccessat, 48
    fn access<P: ChunkPort, F: Folder, I: Source, C: Sink>(
        &mut self,
        objects: &mut Objects<'_, '_, '_, '_, P, F, I, C>,
        path: &Path,
    ) -> Result<CallAnswer, CallFault>
        requires usable { P.usable objects.old.mem.now }
        ensures usable { P.usable objects.new.mem.now }
        ensures lent { Same objects.old objects.new }
        ensures played { Follows P.ChunkPort F.Folder I.Source C.Sink (access_path path.now)
            objects.old self.old result objects.new self.new }
    {
        let kind = outside::kind(objects.folder, path)?;
        Ok(self.accessed(kind))
    }

    // The answer of faccessat, by the kind of its path.
    fn accessed(&mut self, kind: PathKind) -> CallAnswer
        ensures value { result ≡ CallAnswer.Result (access_value kind) }
        ensures acted { self.new.acted ≡ true }
        ensures numbers { self.new.numbers ≡ self.old.numbers }
    {
        match kind {
            PathKind::UnderFile => self.refuse(ErrNo::ENOTDIR),
            PathKind::NoParent => self.refuse(ErrNo::ENOENT),
            PathKind::Free => self.refuse(ErrNo::ENOENT),
            PathKind::Directory => self.done(0),
            PathKind::File => self.done(0),
        }
    }
}
