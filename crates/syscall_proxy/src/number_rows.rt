// The rows that look at an open number or move its place: close, lseek and ftruncate.
ghost use Rattle.std.specs.Prelude.{◌≡◌, slice_set, true};
ghost use Rattle.syscall_proxy.specs.Follows.{Follows, Same};
ghost use Rattle.syscall_proxy.specs.NumberRows.{close_row, lseek_row, new_position as place_from, seek, sought_numbers, sought_value, truncate_file, truncate_row};

use crate::calls::Calls;
use crate::objects::Objects;
use crate::{CallAnswer, CallFault, outside};
use chunk_memory::ChunkPort;
use fe_base::limits::GUEST_FILE_LIMIT;
use fe_base::{ErrNo, Sink, Source};
use folder_tree::Folder;
use host_text::{Open, OpenFile};

impl Calls {
    // The call acts, and nothing stands at the number from now on.
    fn free(&mut self, fd: u32) -> CallAnswer
        ensures value { result ≡ CallAnswer.Result 0 }
        ensures acted { self.new.acted ≡ true }
        ensures numbers { self.new.numbers ≡ slice_set self.old.numbers fd Open.Closed }
    {
        self.acted = true;
        self.numbers.set(fd, Open::Closed);
        CallAnswer::Result(0)
    }

    /// close, 57
    pub(crate) fn close<P: ChunkPort, F: Folder, I: Source, C: Sink>(
        &mut self,
        objects: &mut Objects<'_, '_, '_, '_, P, F, I, C>,
        fd: u32,
    ) -> Result<CallAnswer, CallFault>
        requires usable { P.usable objects.old.mem.now }
        ensures usable { P.usable objects.new.mem.now }
        ensures lent { Same objects.old objects.new }
        ensures played { Follows P.ChunkPort F.Folder I.Source C.Sink (close_row self.old.numbers fd)
            objects.old self.old result objects.new self.new }
    {
        match self.numbers.at(fd) {
            Open::Closed => Ok(self.refuse(ErrNo::EBADF)),
            Open::Input => Ok(self.free(fd)),
            Open::Console => Ok(self.free(fd)),
            Open::File(file) => {
                outside::release(objects.folder, file.number)?;
                Ok(self.free(fd))
            }
        }
    }

    // The call acts by the new place, if there is one.
    fn sought(&mut self, fd: u32, file: OpenFile, base: u64, offset: u64) -> CallAnswer
        ensures value { result ≡ CallAnswer.Result (sought_value (place_from base offset)) }
        ensures acted { self.new.acted ≡ true }
        ensures numbers { self.new.numbers ≡ sought_numbers self.old.numbers fd file (place_from base offset) }
    {
        match new_position(base, offset) {
            Some(place) => {
                self.acted = true;
                self.numbers.place(fd, file, place);
                CallAnswer::Result(place)
            }
            None => self.refuse(ErrNo::EINVAL),
        }
    }

    fn seek<P: ChunkPort, F: Folder, I: Source, C: Sink>(
        &mut self,
        objects: &mut Objects<'_, '_, '_, '_, P, F, I, C>,
        fd: u32,
        file: OpenFile,
        offset: u64,
        whence: u32,
    ) -> Result<CallAnswer, CallFault>
        requires usable { P.usable objects.old.mem.now }
        ensures usable { P.usable objects.new.mem.now }
        ensures lent { Same objects.old objects.new }
        ensures played { Follows P.ChunkPort F.Folder I.Source C.Sink (seek fd file offset whence)
            objects.old self.old result objects.new self.new }
    {
        if whence > 2 {
            return Ok(self.refuse(ErrNo::EINVAL));
        }
        if whence == 2 {
            let size = outside::size(objects.folder, file.number)?;
            return Ok(self.sought(fd, file, size, offset));
        }
        if whence == 1 {
            return Ok(self.sought(fd, file, file.position, offset));
        }
        Ok(self.sought(fd, file, 0, offset))
    }

    /// lseek, 62
    pub(crate) fn lseek<P: ChunkPort, F: Folder, I: Source, C: Sink>(
        &mut self,
        objects: &mut Objects<'_, '_, '_, '_, P, F, I, C>,
        fd: u32,
        offset: u64,
        whence: u32,
    ) -> Result<CallAnswer, CallFault>
        requires usable { P.usable objects.old.mem.now }
        ensures usable { P.usable objects.new.mem.now }
        ensures lent { Same objects.old objects.new }
        ensures played { Follows P.ChunkPort F.Folder I.Source C.Sink (lseek_row self.old.numbers fd offset whence)
            objects.old self.old result objects.new self.new }
    {
        match self.numbers.at(fd) {
            Open::Closed => Ok(self.refuse(ErrNo::EBADF)),
            Open::Input => Ok(self.refuse(ErrNo::ESPIPE)),
            Open::Console => Ok(self.refuse(ErrNo::ESPIPE)),
            Open::File(file) => self.seek(objects, fd, file, offset, whence),
        }
    }

    fn truncate_file<P: ChunkPort, F: Folder, I: Source, C: Sink>(
        &mut self,
        objects: &mut Objects<'_, '_, '_, '_, P, F, I, C>,
        file: OpenFile,
        size: u64,
    ) -> Result<CallAnswer, CallFault>
        requires usable { P.usable objects.old.mem.now }
        ensures usable { P.usable objects.new.mem.now }
        ensures lent { Same objects.old objects.new }
        ensures played { Follows P.ChunkPort F.Folder I.Source C.Sink (truncate_file file size)
            objects.old self.old result objects.new self.new }
    {
        if !file.writes {
            return Ok(self.refuse(ErrNo::EINVAL));
        }
        if size >= 1 << 63 {
            return Ok(self.refuse(ErrNo::EINVAL));
        }
        if size > GUEST_FILE_LIMIT {
            return Ok(self.refuse(ErrNo::EFBIG));
        }
        outside::set_size(objects.folder, file.number, size)?;
        Ok(self.done(0))
    }

    /// ftruncate, 46
    pub(crate) fn truncate<P: ChunkPort, F: Folder, I: Source, C: Sink>(
        &mut self,
        objects: &mut Objects<'_, '_, '_, '_, P, F, I, C>,
        fd: u32,
        size: u64,
    ) -> Result<CallAnswer, CallFault>
        requires usable { P.usable objects.old.mem.now }
        ensures usable { P.usable objects.new.mem.now }
        ensures lent { Same objects.old objects.new }
        ensures played { Follows P.ChunkPort F.Folder I.Source C.Sink (truncate_row self.old.numbers fd size)
            objects.old self.old result objects.new self.new }
    {
        match self.numbers.at(fd) {
            Open::Closed => Ok(self.refuse(ErrNo::EBADF)),
            Open::Input => Ok(self.refuse(ErrNo::EINVAL)),
            Open::Console => Ok(self.refuse(ErrNo::EINVAL)),
            Open::File(file) => self.truncate_file(objects, file, size),
        }
    }
}

// The place that an offset in two's complement leads to, where it is neither below 0 nor above 2^63 - 1.
fn new_position(base: u64, offset: u64) -> Option<u64>
    ensures { result ≡ place_from base offset }
{
    let place = if offset < 1 << 63 {
        base.saturating_add(offset)
    } else {
        let back = 0u64.wrapping_sub(offset);
        if back > base {
            return None;
        }
        base - back
    };
    if place < 1 << 63 { Some(place) } else { None }
}
