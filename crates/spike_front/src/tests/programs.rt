// Programs for the tests, word by word.
ghost use Rattle.std.specs.Prelude.{◌<◌, length};

use std::alloc::{AllocError, Global};

/// The headers of a program file up to the size of its code, and those behind the two sizes.
pub const FRONT: [u8; 96] = [
    0x7f, 0x45, 0x4c, 0x46, 2, 1, 1, 0, 0, 0, 0, 0, 0, 0, 0, 0, //
    2, 0, 0xf3, 0, 1, 0, 0, 0, 0, 0, 1, 0, 0, 0, 0, 0, //
    0x40, 0, 0, 0, 0, 0, 0, 0, 0, 0, 0, 0, 0, 0, 0, 0, //
    0, 0, 0, 0, 0x40, 0, 0x38, 0, 1, 0, 0, 0, 0, 0, 0, 0, //
    1, 0, 0, 0, 7, 0, 0, 0, 0x78, 0, 0, 0, 0, 0, 0, 0, //
    0, 0, 1, 0, 0, 0, 0, 0, 0, 0, 1, 0, 0, 0, 0, 0, //
];

pub const BEHIND: [u8; 8] = [0, 0x10, 0, 0, 0, 0, 0, 0];

/// addi a7, x0, 93; ecall
pub const END: [u32; 2] = [0x05d0_0893, 0x0000_0073];

/// Writes `Hi` and a newline from behind its code, and ends with 0.
pub const HI: [u32; 10] = [
    0x0010_0513,
    0x0000_0597,
    0x0205_8593,
    0x0030_0613,
    0x0400_0893,
    0x0000_0073,
    0x0000_0513,
    0x05d0_0893,
    0x0000_0073,
    0x000a_6948,
];

/// addi a0, x0, 300; addi a7, x0, 93; ecall
pub const THREE_HUNDRED: [u32; 3] = [0x12c0_0513, 0x05d0_0893, 0x0000_0073];

/// Writes nothing at the end of the user area, then nothing behind it, and ends with the number of
/// the error of the second: addi a0, x0, 1; lui a1, 0x1010; addi a2, x0, 0; addi a7, x0, 64; ecall;
/// addi a0, x0, 1; addi a1, a1, 1; ecall; sub a0, x0, a0; addi a7, x0, 93; ecall
pub const BEYOND: [u32; 11] = [
    0x0010_0513,
    0x0101_05b7,
    0x0000_0613,
    0x0400_0893,
    0x0000_0073,
    0x0010_0513,
    0x0015_8593,
    0x0000_0073,
    0x40a0_0533,
    0x05d0_0893,
    0x0000_0073,
];

/// addi t0, x0, 1; slli t0, t0, 31; sd x0, 0(t0)
pub const STORES_FAR: [u32; 3] = [0x0010_0293, 0x01f2_9293, 0x0002_b023];

/// csrrs t0, 0xc00, x0
pub const COUNTER: [u32; 1] = [0xc000_22f3];

/// jal x0, .+2
pub const JUMPS_BETWEEN: [u32; 1] = [0x0020_006f];

/// jal x0, .
pub const FOREVER: [u32; 1] = [0x0000_006f];

/// Writes the quotient of the least number by -1, the remainder of -1 by 0 and the upper half of -1
/// times 2^64 - 1: addi t0, x0, -1; slli t1, t0, 63; div t2, t1, t0; rem t3, t0, x0; mulhsu t4, t0,
/// t0; lui s0, 0x20; sd t2, 0(s0); sd t3, 8(s0); sd t4, 16(s0); addi a0, x0, 1; addi a1, s0, 0;
/// addi a2, x0, 24; addi a7, x0, 64; ecall; addi a0, x0, 0; addi a7, x0, 93; ecall
pub const DIVIDES: [u32; 17] = [
    0xfff0_0293,
    0x03f2_9313,
    0x0253_43b3,
    0x0202_ee33,
    0x0252_aeb3,
    0x0002_0437,
    0x0074_3023,
    0x01c4_3423,
    0x01d4_3823,
    0x0010_0513,
    0x0004_0593,
    0x0180_0613,
    0x0400_0893,
    0x0000_0073,
    0x0000_0513,
    0x05d0_0893,
    0x0000_0073,
];

/// Grows its break by a page, and ends by exit_group with the number of pages that it grew: addi a0,
/// x0, 0; addi a7, x0, 214; ecall; addi t0, a0, 0; lui a1, 1; add a0, a0, a1; ecall; sub a0, a0, t0;
/// srli a0, a0, 12; addi a7, x0, 94; ecall
pub const GROWS: [u32; 11] = [
    0x0000_0513,
    0x0d60_0893,
    0x0000_0073,
    0x0005_0293,
    0x0000_15b7,
    0x00b5_0533,
    0x0000_0073,
    0x4055_0533,
    0x00c5_5513,
    0x05e0_0893,
    0x0000_0073,
];

/// Ends with the number of the error of a call that no table has: addi a7, x0, 1; ecall; sub a0, x0,
/// a0; addi a7, x0, 93; ecall
pub const NO_CALL: [u32; 5] = [
    0x0010_0893,
    0x0000_0073,
    0x40a0_0533,
    0x05d0_0893,
    0x0000_0073,
];

/// Reads from the input to the end of the user area, and ends with the count: lui a1, 0x1010; addi a1,
/// a1, -8; addi a2, x0, 8; addi a7, x0, 63; ecall; addi a7, x0, 93; ecall
pub const TAKES: [u32; 7] = [
    0x0101_05b7,
    0xff85_8593,
    0x0080_0613,
    0x03f0_0893,
    0x0000_0073,
    0x05d0_0893,
    0x0000_0073,
];

/// Reads three bytes of the input into eight bytes of ones, behind the first, and writes all eight: lui
/// s0, 0x20; addi t0, x0, -1; sd t0, 0(s0); addi a1, s0, 1; addi a2, x0, 3; addi a7, x0, 63; ecall; addi
/// a0, x0, 1; addi a1, s0, 0; addi a2, x0, 8; addi a7, x0, 64; ecall; addi a0, x0, 0; addi a7, x0, 93;
/// ecall
pub const TAKES_BETWEEN: [u32; 15] = [
    0x0002_0437,
    0xfff0_0293,
    0x0054_3023,
    0x0014_0593,
    0x0030_0613,
    0x03f0_0893,
    0x0000_0073,
    0x0010_0513,
    0x0004_0593,
    0x0080_0613,
    0x0400_0893,
    0x0000_0073,
    0x0000_0513,
    0x05d0_0893,
    0x0000_0073,
];

/// Opens `log` to append, and appends its name: addi a0, x0, -100; auipc a1, 0; addi a1, a1, 44; addi
/// a2, x0, 0x401; addi a7, x0, 56; ecall; addi a2, x0, 3; addi a7, x0, 64; ecall; addi a0, x0, 0; addi
/// a7, x0, 93; ecall; and the name with a NUL
pub const APPENDS: [u32; 13] = [
    0xf9c0_0513,
    0x0000_0597,
    0x02c5_8593,
    0x4010_0613,
    0x0380_0893,
    0x0000_0073,
    0x0030_0613,
    0x0400_0893,
    0x0000_0073,
    0x0000_0513,
    0x05d0_0893,
    0x0000_0073,
    0x0067_6f6c,
];

/// The file of one segment with this code.
pub fn program(alloc: Global, code: &[u32]) -> Result<Vec<u8>, AllocError>
    requires { length code.now < 1000 }
{
    let size = 4 * code.len() as u64;
    let mut file = Vec::from_slice(alloc, &FRONT)?;
    file.extend_from_slice(&size.to_le_bytes())?;
    file.extend_from_slice(&size.to_le_bytes())?;
    file.extend_from_slice(&BEHIND)?;
    for word in code {
        file.extend_from_slice(&word.to_le_bytes())?;
    }
    Ok(file)
}

/// Asks for the stat record of the console, grows its break by a page, writes what stands in its second segment, and ends
/// with 0: addi sp, sp, -128; addi a0, x0, 1; addi a1, sp, 0; addi a7, x0, 80; ecall; addi a0, x0, 0; addi a7, x0, 214;
/// ecall; lui a1, 1; add a0, a0, a1; ecall; addi a0, x0, 1; lui a1, 0x11; addi a2, x0, 14; addi a7, x0, 64; ecall; addi
/// a0, x0, 0; addi a7, x0, 93; ecall
const HELLO: [u32; 19] = [
    0xf801_0113,
    0x0010_0513,
    0x0001_0593,
    0x0500_0893,
    0x0000_0073,
    0x0000_0513,
    0x0d60_0893,
    0x0000_0073,
    0x0000_15b7,
    0x00b5_0533,
    0x0000_0073,
    0x0010_0513,
    0x0001_15b7,
    0x00e0_0613,
    0x0400_0893,
    0x0000_0073,
    0x0000_0513,
    0x05d0_0893,
    0x0000_0073,
];

// Adds a program header: its type and flags, and the offset, the two addresses and the two sizes.
fn push_header(
    file: &mut Vec<u8>,
    kind: u32,
    flags: u32,
    fields: &[u64],
) -> Result<(), AllocError> {
    file.extend_from_slice(&kind.to_le_bytes())?;
    file.extend_from_slice(&flags.to_le_bytes())?;
    for field in fields {
        file.extend_from_slice(&field.to_le_bytes())?;
    }
    Ok(())
}

/// The file of a program as a linker makes it: two segments between headers of other types, the code behind the headers,
/// and the second segment on a page of its own.
pub fn hello(alloc: Global) -> Result<Vec<u8>, AllocError> {
    let mut file = Vec::from_slice(alloc, &FRONT[..64])?;
    file[24] = 0x20;
    file[25] = 0x01;
    file[56] = 4;
    push_header(&mut file, 0x7000_0003, 0, &[0; 6])?;
    push_header(&mut file, 1, 5, &[0, 0x1_0000, 0, 0x16c, 0x16c, 0])?;
    push_header(&mut file, 1, 6, &[0x1000, 0x1_1000, 0, 14, 0x800, 0])?;
    push_header(&mut file, 0x6474_e551, 0, &[0; 6])?;
    for word in HELLO {
        file.extend_from_slice(&word.to_le_bytes())?;
    }
    let gap: Vec<u8> = vec![in alloc; 0; 0x1000 - 0x16c]?;
    file.extend_from_slice(&gap)?;
    file.extend_from_slice(b"Hello, world!\n")?;
    Ok(file)
}
