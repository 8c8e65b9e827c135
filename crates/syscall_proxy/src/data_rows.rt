// The rows that move bytes: read, write, pread64 and pwrite64.
ghost use Rattle.std.specs.Prelude.{◌≡◌, ◌≤◌};
ghost use Rattle.syscall_proxy.specs.DataRows.{pread_file, pread_row, pwrite_file, pwrite_row, read_file, read_input, read_row, write_console, write_file, write_place, write_row};
ghost use Rattle.syscall_proxy.specs.Follows.{Follows, Same};
ghost use Rattle.syscall_proxy.specs.Rows.{give};

use crate::calls::Calls;
use crate::objects::Objects;
use crate::{CallAnswer, CallFault, outside};
use chunk_memory::ChunkPort;
use fe_base::limits::GUEST_FILE_LIMIT;
use fe_base::{ErrNo, Sink, Source};
use folder_tree::Folder;
use host_text::{Open, OpenFile};

impl Calls {
    // The buffer's bytes go to the guest, and how many they are is the result.
    pub(crate) fn give<P: ChunkPort, F: Folder, I: Source, C: Sink>(
        &mut self,
        objects: &mut Objects<'_, '_, '_, '_, P, F, I, C>,
        buffer: u64,
    ) -> Result<CallAnswer, CallFault>
        requires usable { P.usable objects.old.mem.now }
        ensures usable { P.usable objects.new.mem.now }
        ensures lent { Same objects.old objects.new }
        ensures played { Follows P.ChunkPort F.Folder I.Source C.Sink (give buffer self.old.buffer)
            objects.old self.old result objects.new self.new }
    {
        outside::write(objects.mem, buffer, &self.buffer)?;
        Ok(CallAnswer::Result(self.buffer.len()))
    }

    fn read_input<P: ChunkPort, F: Folder, I: Source, C: Sink>(
        &mut self,
        objects: &mut Objects<'_, '_, '_, '_, P, F, I, C>,
        buffer: u64,
        count: usize,
    ) -> Result<CallAnswer, CallFault>
        requires usable { P.usable objects.old.mem.now }
        requires count { count ≤ 1048576 }
        ensures usable { P.usable objects.new.mem.now }
        ensures lent { Same objects.old objects.new }
        ensures played { Follows P.ChunkPort F.Folder I.Source C.Sink (read_input buffer count)
            objects.old self.old result objects.new self.new }
    {
        if count == 0 {
            return Ok(self.done(0));
        }
        self.buffer.take(objects.input, count)?;
        self.acted = true;
        self.give(objects, buffer)
    }

    fn read_file<P: ChunkPort, F: Folder, I: Source, C: Sink>(
        &mut self,
        objects: &mut Objects<'_, '_, '_, '_, P, F, I, C>,
        fd: u32,
        file: OpenFile,
        buffer: u64,
        count: usize,
    ) -> Result<CallAnswer, CallFault>
        requires usable { P.usable objects.old.mem.now }
        requires count { count ≤ 1048576 }
        ensures usable { P.usable objects.new.mem.now }
        ensures lent { Same objects.old objects.new }
        ensures played { Follows P.ChunkPort F.Folder I.Source C.Sink (read_file fd file buffer count)
            objects.old self.old result objects.new self.new }
    {
        if !file.reads {
            return Ok(self.refuse(ErrNo::EBADF));
        }
        if count == 0 {
            return Ok(self.done(0));
        }
        self.buffer
            .read_at(objects.folder, file.number, file.position, count)?;
        self.acted = true;
        self.numbers.advance(fd, file, &self.buffer);
        self.give(objects, buffer)
    }

    /// read, 63
    pub(crate) fn read<P: ChunkPort, F: Folder, I: Source, C: Sink>(
        &mut self,
        objects: &mut Objects<'_, '_, '_, '_, P, F, I, C>,
        fd: u32,
        buffer: u64,
        count: usize,
    ) -> Result<CallAnswer, CallFault>
        requires usable { P.usable objects.old.mem.now }
        requires count { count ≤ 1048576 }
        ensures usable { P.usable objects.new.mem.now }
        ensures lent { Same objects.old objects.new }
        ensures played { Follows P.ChunkPort F.Folder I.Source C.Sink (read_row self.old.numbers fd buffer count)
            objects.old self.old result objects.new self.new }
    {
        match self.numbers.at(fd) {
            Open::Closed => Ok(self.refuse(ErrNo::EBADF)),
            Open::Input => self.read_input(objects, buffer, count),
            Open::Console => Ok(self.refuse(ErrNo::EBADF)),
            Open::File(file) => self.read_file(objects, fd, file, buffer, count),
        }
    }

    fn write_console<P: ChunkPort, F: Folder, I: Source, C: Sink>(
        &mut self,
        objects: &mut Objects<'_, '_, '_, '_, P, F, I, C>,
        buffer: u64,
        count: usize,
    ) -> Result<CallAnswer, CallFault>
        requires usable { P.usable objects.old.mem.now }
        requires count { count ≤ 1048576 }
        ensures usable { P.usable objects.new.mem.now }
        ensures lent { Same objects.old objects.new }
        ensures played { Follows P.ChunkPort F.Folder I.Source C.Sink (write_console buffer count)
            objects.old self.old result objects.new self.new }
    {
        if count == 0 {
            return Ok(self.done(0));
        }
        self.buffer.read(objects.mem, buffer, count)?;
        outside::put(objects.console, &self.buffer)?;
        Ok(self.done(count as u64))
    }

    fn write_place<P: ChunkPort, F: Folder, I: Source, C: Sink>(
        &mut self,
        objects: &mut Objects<'_, '_, '_, '_, P, F, I, C>,
        fd: u32,
        file: OpenFile,
        place: u64,
        buffer: u64,
        count: usize,
    ) -> Result<CallAnswer, CallFault>
        requires usable { P.usable objects.old.mem.now }
        requires count { count ≤ 1048576 }
        ensures usable { P.usable objects.new.mem.now }
        ensures lent { Same objects.old objects.new }
        ensures played { Follows P.ChunkPort F.Folder I.Source C.Sink (write_place fd file place buffer count)
            objects.old self.old result objects.new self.new }
    {
        if place > GUEST_FILE_LIMIT - count as u64 {
            return Ok(self.refuse(ErrNo::EFBIG));
        }
        self.buffer.read(objects.mem, buffer, count)?;
        outside::write_at(objects.folder, file.number, place, &self.buffer)?;
        self.acted = true;
        self.numbers.place(fd, file, place + count as u64);
        Ok(CallAnswer::Result(count as u64))
    }

    fn write_file<P: ChunkPort, F: Folder, I: Source, C: Sink>(
        &mut self,
        objects: &mut Objects<'_, '_, '_, '_, P, F, I, C>,
        fd: u32,
        file: OpenFile,
        buffer: u64,
        count: usize,
    ) -> Result<CallAnswer, CallFault>
        requires usable { P.usable objects.old.mem.now }
        requires count { count ≤ 1048576 }
        ensures usable { P.usable objects.new.mem.now }
        ensures lent { Same objects.old objects.new }
        ensures played { Follows P.ChunkPort F.Folder I.Source C.Sink (write_file fd file buffer count)
            objects.old self.old result objects.new self.new }
    {
        if !file.writes {
            return Ok(self.refuse(ErrNo::EBADF));
        }
        if count == 0 {
            return Ok(self.done(0));
        }
        if file.appends {
            let size = outside::size(objects.folder, file.number)?;
            return self.write_place(objects, fd, file, size, buffer, count);
        }
        self.write_place(objects, fd, file, file.position, buffer, count)
    }

    /// write, 64
    pub(crate) fn write<P: ChunkPort, F: Folder, I: Source, C: Sink>(
        &mut self,
        objects: &mut Objects<'_, '_, '_, '_, P, F, I, C>,
        fd: u32,
        buffer: u64,
        count: usize,
    ) -> Result<CallAnswer, CallFault>
        requires usable { P.usable objects.old.mem.now }
        requires count { count ≤ 1048576 }
        ensures usable { P.usable objects.new.mem.now }
        ensures lent { Same objects.old objects.new }
        ensures played { Follows P.ChunkPort F.Folder I.Source C.Sink (write_row self.old.numbers fd buffer count)
            objects.old self.old result objects.new self.new }
    {
        match self.numbers.at(fd) {
            Open::Closed => Ok(self.refuse(ErrNo::EBADF)),
            Open::Input => Ok(self.refuse(ErrNo::EBADF)),
            Open::Console => self.write_console(objects, buffer, count),
            Open::File(file) => self.write_file(objects, fd, file, buffer, count),
        }
    }

    fn pread_file<P: ChunkPort, F: Folder, I: Source, C: Sink>(
        &mut self,
        objects: &mut Objects<'_, '_, '_, '_, P, F, I, C>,
        file: OpenFile,
        buffer: u64,
        count: usize,
        offset: u64,
    ) -> Result<CallAnswer, CallFault>
        requires usable { P.usable objects.old.mem.now }
        requires count { count ≤ 1048576 }
        ensures usable { P.usable objects.new.mem.now }
        ensures lent { Same objects.old objects.new }
        ensures played { Follows P.ChunkPort F.Folder I.Source C.Sink (pread_file file buffer count offset)
            objects.old self.old result objects.new self.new }
    {
        if !file.reads {
            return Ok(self.refuse(ErrNo::EBADF));
        }
        if offset >= 1 << 63 {
            return Ok(self.refuse(ErrNo::EINVAL));
        }
        if count == 0 {
            return Ok(self.done(0));
        }
        self.buffer
            .read_at(objects.folder, file.number, offset, count)?;
        self.acted = true;
        self.give(objects, buffer)
    }

    /// pread64, 67
    pub(crate) fn pread<P: ChunkPort, F: Folder, I: Source, C: Sink>(
        &mut self,
        objects: &mut Objects<'_, '_, '_, '_, P, F, I, C>,
        fd: u32,
        buffer: u64,
        count: usize,
        offset: u64,
    ) -> Result<CallAnswer, CallFault>
        requires usable { P.usable objects.old.mem.now }
        requires count { count ≤ 1048576 }
        ensures usable { P.usable objects.new.mem.now }
        ensures lent { Same objects.old objects.new }
        ensures played { Follows P.ChunkPort F.Folder I.Source C.Sink (pread_row self.old.numbers fd buffer count offset)
            objects.old self.old result objects.new self.new }
    {
        match self.numbers.at(fd) {
            Open::Closed => Ok(self.refuse(ErrNo::EBADF)),
            Open::Input => Ok(self.refuse(ErrNo::ESPIPE)),
            Open::Console => Ok(self.refuse(ErrNo::ESPIPE)),
            Open::File(file) => self.pread_file(objects, file, buffer, count, offset),
        }
    }

    fn pwrite_file<P: ChunkPort, F: Folder, I: Source, C: Sink>(
        &mut self,
        objects: &mut Objects<'_, '_, '_, '_, P, F, I, C>,
        file: OpenFile,
        buffer: u64,
        count: usize,
        offset: u64,
    ) -> Result<CallAnswer, CallFault>
        requires usable { P.usable objects.old.mem.now }
        requires count { count ≤ 1048576 }
        ensures usable { P.usable objects.new.mem.now }
        ensures lent { Same objects.old objects.new }
        ensures played { Follows P.ChunkPort F.Folder I.Source C.Sink (pwrite_file file buffer count offset)
            objects.old self.old result objects.new self.new }
    {
        if !file.writes {
            return Ok(self.refuse(ErrNo::EBADF));
        }
        if offset >= 1 << 63 {
            return Ok(self.refuse(ErrNo::EINVAL));
        }
        if count == 0 {
            return Ok(self.done(0));
        }
        if offset > GUEST_FILE_LIMIT - count as u64 {
            return Ok(self.refuse(ErrNo::EFBIG));
        }
        self.buffer.read(objects.mem, buffer, count)?;
        outside::write_at(objects.folder, file.number, offset, &self.buffer)?;
        Ok(self.done(count as u64))
    }

    /// pwrite64, 68
    pub(crate) fn pwrite<P: ChunkPort, F: Folder, I: Source, C: Sink>(
        &mut self,
        objects: &mut Objects<'_, '_, '_, '_, P, F, I, C>,
        fd: u32,
        buffer: u64,
        count: usize,
        offset: u64,
    ) -> Result<CallAnswer, CallFault>
        requires usable { P.usable objects.old.mem.now }
        requires count { count ≤ 1048576 }
        ensures usable { P.usable objects.new.mem.now }
        ensures lent { Same objects.old objects.new }
        ensures played { Follows P.ChunkPort F.Folder I.Source C.Sink (pwrite_row self.old.numbers fd buffer count offset)
            objects.old self.old result objects.new self.new }
    {
        match self.numbers.at(fd) {
            Open::Closed => Ok(self.refuse(ErrNo::EBADF)),
            Open::Input => Ok(self.refuse(ErrNo::ESPIPE)),
            Open::Console => Ok(self.refuse(ErrNo::ESPIPE)),
            Open::File(file) => self.pwrite_file(objects, file, buffer, count, offset),
        }
    }
}
