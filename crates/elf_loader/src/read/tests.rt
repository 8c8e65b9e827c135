use super::*;
use crate::ElfFault::{
    self, Class, Dynamic, Entry, Flags, HeaderSize, Headers as HeadersFault, Kind, Machine, Magic,
    Order, Outside, Overlap, Segment, Short, TooLarge, Version,
};
use std::test::Fail;

// Two instructions: `addi a7, x0, 93` and `ecall`.
const EXITS: [u8; 128] = [
    0x7f, 0x45, 0x4c, 0x46, 2, 1, 1, 0, 0, 0, 0, 0, 0, 0, 0, 0, //
    2, 0, 0xf3, 0, 1, 0, 0, 0, 0, 0, 1, 0, 0, 0, 0, 0, //
    0x40, 0, 0, 0, 0, 0, 0, 0, 0, 0, 0, 0, 0, 0, 0, 0, //
    0, 0, 0, 0, 0x40, 0, 0x38, 0, 1, 0, 0, 0, 0, 0, 0, 0, //
    1, 0, 0, 0, 7, 0, 0, 0, 0x78, 0, 0, 0, 0, 0, 0, 0, //
    0, 0, 1, 0, 0, 0, 0, 0, 0, 0, 1, 0, 0, 0, 0, 0, //
    8, 0, 0, 0, 0, 0, 0, 0, 8, 0, 0, 0, 0, 0, 0, 0, //
    0, 0x10, 0, 0, 0, 0, 0, 0, 0x93, 8, 0xd0, 5, 0x73, 0, 0, 0,
];

fn fault_of(rt: &HostRuntime, file: &[u8]) -> Option<ElfFault> {
    match read_elf(rt.alloc(), file) {
        Err(ElfStop::Bad(fault)) => Some(fault),
        _ => None,
    }
}

// A file header with so many program headers behind it.
fn begin(alloc: Global, count: u16, entry: u64) -> Result<Vec<u8>, AllocError> {
    let mut file = EXITS[..24].to_vec(alloc)?;
    file.extend_from_slice(&entry.to_le_bytes())?;
    file.extend_from_slice(&EXITS[32..56])?;
    file.extend_from_slice(&count.to_le_bytes())?;
    file.extend_from_slice(&[0; 6])?;
    Ok(file)
}

#[derive(Clone, Copy)]
struct Fields {
    kind: u32,
    offset: u64,
    address: u64,
    file_size: u64,
    memory_size: u64,
}

const NO_FIELDS: Fields = Fields {
    kind: 0,
    offset: 0,
    address: 0,
    file_size: 0,
    memory_size: 0,
};

fn push(file: &mut Vec<u8>, fields: &Fields) -> Result<(), AllocError> {
    file.extend_from_slice(&fields.kind.to_le_bytes())?;
    file.extend_from_slice(&[0; 4])?;
    file.extend_from_slice(&fields.offset.to_le_bytes())?;
    file.extend_from_slice(&fields.address.to_le_bytes())?;
    file.extend_from_slice(&fields.address.to_le_bytes())?;
    file.extend_from_slice(&fields.file_size.to_le_bytes())?;
    file.extend_from_slice(&fields.memory_size.to_le_bytes())?;
    file.extend_from_slice(&[0; 8])
}

#[test]
fn reads_one_segment(rt: HostRuntime) -> Result<(), Fail> {
    let image = read_elf(rt.alloc(), &EXITS)?;
    assert_eq!(rt; image.entry, 0x1_0000);
    assert_eq!(rt; image.first_break, 0x1_0010);
    assert_eq!(rt; image.segments.len(), 1);
    assert_eq!(rt; image.segments.address(0), 0x1_0000);
    assert_eq!(rt; image.segments.size(0), 8);
    assert_eq!(rt; image.segments.bytes(0), &EXITS[120..]);
    Ok(())
}

#[test]
fn refuses_every_prefix(rt: HostRuntime) {
    for length in 0..EXITS.len() {
        let want = match length {
            0..64 => Short,
            64..120 => HeadersFault,
            _ => Segment(0),
        };
        assert_eq!(rt;
            fault_of(&rt, &EXITS[..length]),
            Some(want),
            "{length} bytes"
        );
    }
}

#[test]
fn finds_what_each_byte_breaks(rt: HostRuntime) {
    // From each of these places up to the next, a byte of 0xFF has this fault.
    let faults = [
        (0, Some(Magic)),
        (4, Some(Class)),
        (5, Some(Order)),
        (6, Some(Version)),
        (7, None),
        (16, Some(Kind)),
        (18, Some(Machine)),
        (20, Some(Version)),
        (24, Some(Entry)),
        (32, Some(HeadersFault)),
        (40, None),
        (48, Some(Flags)),
        (49, None),
        (52, Some(HeaderSize)),
        (56, Some(HeadersFault)),
        (58, None),
        (64, Some(Entry)),
        (68, None),
        (72, Some(Segment(0))),
        (80, Some(Entry)),
        (83, Some(Outside(0))),
        (88, None),
        (96, Some(Segment(0))),
        (104, None),
        (106, Some(Outside(0))),
        (112, None),
    ];
    for place in 0..128 {
        let mut want = None;
        for (from, fault) in faults {
            if from <= place {
                want = fault;
            }
        }
        let mut file = EXITS;
        file[place] = 0xff;
        assert_eq!(rt; fault_of(&rt, &file), want, "byte {place}");
    }
}

#[test]
fn finds_what_a_field_breaks(rt: HostRuntime) -> Result<(), Fail> {
    // The field's place, its first four bytes and the fault.
    let rows = [
        (104, [7, 0, 0, 0], Some(Segment(0))),
        (104, [1, 0, 0xff, 0], Some(Outside(0))),
        (104, [0, 0, 0xff, 0], None),
        (48, [1, 0, 0, 0], Some(Flags)),
        (48, [0x10, 0, 0, 0], None),
        (24, [2, 0, 1, 0], Some(Entry)),
        (24, [8, 0, 1, 0], Some(Entry)),
        (24, [4, 0, 1, 0], None),
        (64, [2, 0, 0, 0], Some(Dynamic)),
        (64, [3, 0, 0, 0], Some(Dynamic)),
        (56, [0, 0, 0, 0], Some(Entry)),
    ];
    for (place, bytes, want) in rows {
        assert!(rt; place <= 124);
        let mut file = EXITS;
        file[place..place + 4].copy_from_slice(&bytes);
        assert_eq!(rt; fault_of(&rt, &file), want, "{bytes:?} at {place}");
    }
    let mut file = EXITS;
    file[106] = 0xff;
    file[104] = 0;
    assert_eq!(rt; read_elf(rt.alloc(), &file)?.first_break, 0x100_0000);
    let large = vec![in rt.alloc(); 0u8; 67_108_865]?;
    assert_eq!(rt; fault_of(&rt, &large), Some(TooLarge));
    assert_eq!(rt; fault_of(&rt, &large[1..]), Some(Magic));
    Ok(())
}

#[test]
fn tells_which_headers_overlap(rt: HostRuntime) -> Result<(), Fail> {
    // The addresses of segments of 8 bytes, and the fault.
    let rows = [
        (
            [0x1_0000, 0x1_0000, 0x2_0000, 0x3_0000],
            Some(Overlap(0, 1)),
        ),
        (
            [0x1_0000, 0x2_0000, 0x2_0007, 0x1_0007],
            Some(Overlap(0, 3)),
        ),
        (
            [0x1_0000, 0x2_0007, 0x1_8000, 0x2_0000],
            Some(Overlap(1, 3)),
        ),
        ([0x1_0000, 0x2_0008, 0x1_0008, 0x2_0000], None),
        ([0x1_0000, 0xff_fff8, 0xff_fff9, 0x1_0000], Some(Outside(2))),
        ([0x1_0000, 0x1_0000, 0xffff, 0xffff], Some(Outside(2))),
        ([0x1_0000, 0x1_0000, u64::MAX, 0], Some(Outside(2))),
    ];
    for (addresses, want) in rows {
        let mut file = begin(rt.alloc(), 4, 0x1_0000)?;
        for address in addresses {
            push(
                &mut file,
                &Fields {
                    kind: 1,
                    address,
                    memory_size: 8,
                    ..NO_FIELDS
                },
            )?;
        }
        assert_eq!(rt; fault_of(&rt, &file), want, "{addresses:?}");
    }
    Ok(())
}

#[test]
fn reads_what_linkers_make(rt: HostRuntime) -> Result<(), Fail> {
    let attributes = Fields {
        kind: 0x7000_0003,
        offset: u64::MAX,
        file_size: u64::MAX,
        ..NO_FIELDS
    };
    let code = Fields {
        kind: 1,
        offset: 0,
        address: 0x1_0000,
        file_size: 0x198,
        memory_size: 0x198,
    };
    // 14 bytes of data, and zeros behind them
    let data = Fields {
        kind: 1,
        offset: 0x198,
        address: 0x1_1000,
        file_size: 14,
        memory_size: 0x7f5,
    };
    let note = Fields {
        kind: 4,
        offset: 0x40,
        file_size: 0x20,
        ..NO_FIELDS
    };
    let stack = Fields {
        kind: 0x6474_e551,
        memory_size: u64::MAX,
        ..NO_FIELDS
    };
    let empty = Fields {
        kind: 1,
        offset: 0x1a6,
        ..NO_FIELDS
    };
    let mut file = begin(rt.alloc(), 6, 0x1_0190)?;
    for fields in [attributes, code, data, note, stack, empty] {
        push(&mut file, &fields)?;
    }
    file.extend_from_slice(&EXITS[120..])?;
    file.extend_from_slice(b"Hello, world!\n")?;
    let image = read_elf(rt.alloc(), &file)?;
    assert_eq!(rt; image.entry, 0x1_0190);
    assert_eq!(rt; image.first_break, 0x1_1800);
    assert_eq!(rt; image.segments.len(), 2);
    assert_eq!(rt; image.segments.address(0), 0x1_0000);
    assert_eq!(rt; Some(image.segments.bytes(0)), file.get(..0x198));
    assert_eq!(rt; image.segments.address(1), 0x1_1000);
    assert_eq!(rt; image.segments.size(1), 0x7f5);
    assert_eq!(rt; image.segments.bytes(1), b"Hello, world!\n".as_slice());
    Ok(())
}
