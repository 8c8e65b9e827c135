// The rows that write a record: fstat and getmainvars.
ghost use Rattle.std.specs.Prelude.{◌≡◌};
ghost use Rattle.syscall_proxy.specs.Follows.{Follows, Same};
ghost use Rattle.syscall_proxy.specs.RecordRows.{give_record, main_vars_row, stat_row};
ghost use Rattle.syscall_proxy.specs.StatRecord.{stat_record as record_of};

use crate::calls::Calls;
use crate::main_vars::hold_main_vars;
use crate::objects::Objects;
use crate::setting::Setting;
use crate::stat::stat_record;
use crate::{CallAnswer, CallFault, outside};
use chunk_memory::ChunkPort;
use elf_loader::main_vars_len;
use fe_base::{ErrNo, Sink, Source};
use folder_tree::Folder;
use host_text::Open;

// A regular file, and a character device, that all may read and write (S_IFREG, S_IFCHR and 0666).
const FILE_MODE: u32 = 0x81b6;

const DEVICE_MODE: u32 = 0x21b6;

impl Calls {
    // The call acts, and the buffer's bytes go to the guest.
    fn give_record<P: ChunkPort, F: Folder, I: Source, C: Sink>(
        &mut self,
        objects: &mut Objects<'_, '_, '_, '_, P, F, I, C>,
        buffer: u64,
    ) -> Result<CallAnswer, CallFault>
        requires usable { P.usable objects.old.mem.now }
        ensures usable { P.usable objects.new.mem.now }
        ensures lent { Same objects.old objects.new }
        ensures played { Follows P.ChunkPort F.Folder I.Source C.Sink (give_record buffer self.old.buffer)
            objects.old self.old result objects.new self.new }
    {
        self.acted = true;
        outside::write(objects.mem, buffer, &self.buffer)?;
        Ok(CallAnswer::Result(0))
    }

    fn give_stat<P: ChunkPort, F: Folder, I: Source, C: Sink>(
        &mut self,
        objects: &mut Objects<'_, '_, '_, '_, P, F, I, C>,
        buffer: u64,
        mode: u32,
        size: u64,
    ) -> Result<CallAnswer, CallFault>
        requires usable { P.usable objects.old.mem.now }
        ensures usable { P.usable objects.new.mem.now }
        ensures lent { Same objects.old objects.new }
        ensures played { Follows P.ChunkPort F.Folder I.Source C.Sink (give_record buffer (record_of mode size))
            objects.old self.old result objects.new self.new }
    {
        let record = stat_record(mode, size);
        self.buffer.hold(&record);
        self.give_record(objects, buffer)
    }

    /// fstat, 80
    pub(crate) fn stat<P: ChunkPort, F: Folder, I: Source, C: Sink>(
        &mut self,
        objects: &mut Objects<'_, '_, '_, '_, P, F, I, C>,
        fd: u32,
        buffer: u64,
    ) -> Result<CallAnswer, CallFault>
        requires usable { P.usable objects.old.mem.now }
        ensures usable { P.usable objects.new.mem.now }
        ensures lent { Same objects.old objects.new }
        ensures played { Follows P.ChunkPort F.Folder I.Source C.Sink (stat_row self.old.numbers fd buffer)
            objects.old self.old result objects.new self.new }
    {
        match self.numbers.at(fd) {
            Open::Closed => Ok(self.refuse(ErrNo::EBADF)),
            Open::Input => self.give_stat(objects, buffer, DEVICE_MODE, 0),
            Open::Console => self.give_stat(objects, buffer, DEVICE_MODE, 0),
            Open::File(file) => {
                let size = outside::size(objects.folder, file.number)?;
                self.give_stat(objects, buffer, FILE_MODE, size)
            }
        }
    }

    /// getmainvars, 2011
    pub(crate) fn main_vars<P: ChunkPort, F: Folder, I: Source, C: Sink>(
        &mut self,
        objects: &mut Objects<'_, '_, '_, '_, P, F, I, C>,
        setting: &Setting,
        buffer: u64,
        limit: u64,
    ) -> Result<CallAnswer, CallFault>
        requires usable { P.usable objects.old.mem.now }
        ensures usable { P.usable objects.new.mem.now }
        ensures lent { Same objects.old objects.new }
        ensures played { Follows P.ChunkPort F.Folder I.Source C.Sink (main_vars_row setting.now.args buffer limit)
            objects.old self.old result objects.new self.new }
    {
        let args = setting.args();
        if main_vars_len(args) > limit {
            return Ok(self.refuse(ErrNo::ENOMEM));
        }
        hold_main_vars(&mut self.buffer, args, buffer);
        self.give_record(objects, buffer)
    }
}
