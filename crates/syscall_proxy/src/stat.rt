// The record that fstat gives.
ghost use Rattle.std.specs.Prelude.{◌≡◌, ◌≤◌, ◌+◌, ◌++◌, drop, take};
ghost use Rattle.byteorder.specs.Endian.{little_bytes};
ghost use Rattle.syscall_proxy.specs.StatRecord.{stat_record as record_of};

use byteorder::{ByteOrder, LittleEndian};

/// The bytes of a stat record.
pub const STAT_SIZE: usize = 128;

// What is told of every file: one name, and transfers of so many bytes.
const LINKS: u32 = 1;

const BLOCK_SIZE: u32 = 4096;

// What `st_blocks` counts.
const BLOCK_UNIT: u64 = 512;

fn put_u32(record: &mut [u8; STAT_SIZE], at: usize, value: u32)
    requires { at + 4 ≤ STAT_SIZE }
    ensures { record.new ≡ take at record.old ++ (little_bytes 4 value ++ drop (at + 4) record.old) }
{
    LittleEndian::write_u32(&mut record[at..at + 4], value);
}

fn put_u64(record: &mut [u8; STAT_SIZE], at: usize, value: u64)
    requires { at + 8 ≤ STAT_SIZE }
    ensures { record.new ≡ take at record.old ++ (little_bytes 8 value ++ drop (at + 8) record.old) }
{
    LittleEndian::write_u64(&mut record[at..at + 8], value);
}

/// The stat record of a file or a device with this mode and size (Linux, include/uapi/asm-generic/stat.h).
pub fn stat_record(mode: u32, size: u64) -> [u8; STAT_SIZE]
    ensures { result ≡ record_of mode size }
{
    let mut record = [0; STAT_SIZE];
    put_u32(&mut record, 16, mode);
    put_u32(&mut record, 20, LINKS);
    put_u64(&mut record, 48, size);
    put_u32(&mut record, 56, BLOCK_SIZE);
    put_u64(&mut record, 64, size.div_ceil(BLOCK_UNIT));
    record
}
