// Lines of assembly as values that can be copied, and the items that they stand for.
ghost use Rattle.std.specs.Prelude.{◌≡◌, IfOk, true};
ghost use Rattle.asm_items.specs.Names.{is_name};
ghost use Rattle.proxy_kernel.specs.Kernel.{item_of, items_of, name_of};

use asm_items::{Item, Items, Name};
use rv_decode::{Cond, Insn};
use std::alloc::{AllocError, Global};

/// A place in the kernel's text that has a name.
#[derive(Clone, Copy)]
pub enum Place {
    /// The hart begins here.
    Boot,
    /// Until the host has answered.
    BootWait,
    /// The answer is taken from the mailbox.
    BootTake,
    /// Into the program.
    Leave,
    /// Every trap begins here.
    Save,
    /// What came: a call or another trap, and which call.
    Check,
    /// A request with one argument.
    OneArgument,
    /// A request with two arguments.
    TwoArguments,
    /// A request with three arguments.
    ThreeArguments,
    /// A request with a buffer for a stat record.
    StatBuffer,
    /// A request with a buffer and its count.
    Buffer,
    /// A request with a buffer, its count and a position.
    BufferAt,
    /// With the lowered count.
    Lowered,
    /// Whether the buffer is in the user area.
    CheckRange,
    /// A request with a path.
    Scan,
    /// The next byte of the path.
    ScanNext,
    /// There is no such call.
    UnknownCall,
    /// An address outside the user area.
    BadAddress,
    /// A path without an end.
    LongPath,
    /// The break is moved.
    MoveBreak,
    /// The break is told.
    TellBreak,
    /// The path has its end.
    Scanned,
    /// Its length goes behind its address.
    PutLength,
    /// The request is written and posted.
    Fill,
    /// Until the host has answered.
    Wait,
    /// The answer is taken from the request.
    Take,
    /// Back into the program.
    Restore,
    /// A trap that ends the program.
    Speak,
    /// The text on a counter.
    CounterText,
    /// The text on another trap.
    TrapText,
    /// The end of the line.
    EndText,
    /// Digits of a number, the highest first.
    PutNumber,
    /// One byte for the console.
    PutByte,
    /// Until the mailbox is empty.
    PutWait,
    /// The status.
    Close,
    /// Until the mailbox is empty.
    CloseWait,
    /// Nothing more is done.
    Idle,
}

/// A line of the kernel's text: a label, or an instruction with its operands in the order in which they are written.
#[derive(Clone, Copy)]
pub enum Row {
    Label(Place),
    Lui(u8, u32),
    Auipc(u8, u32),
    Addi(u8, u8, i32),
    Sltiu(u8, u8, i32),
    Andi(u8, u8, i32),
    Slli(u8, u8, u8),
    Srli(u8, u8, u8),
    Add(u8, u8, u8),
    Sub(u8, u8, u8),
    Srl(u8, u8, u8),
    Ld(u8, i32, u8),
    Lbu(u8, i32, u8),
    Sd(u8, i32, u8),
    Beq(u8, u8, Place),
    Bne(u8, u8, Place),
    Bltu(u8, u8, Place),
    Bgeu(u8, u8, Place),
    Jal(u8, Place),
    Jalr(u8, i32, u8),
    La(u8, Place),
    Csrrw(u8, u16, u8),
    Csrrs(u8, u16, u8),
    Mret,
}

fn place_name(place: Place) -> &'static [u8]
    ensures { result.now ≡ name_of place }
{
    match place {
        Place::Boot => b"boot",
        Place::BootWait => b"boot_wait",
        Place::BootTake => b"boot_take",
        Place::Leave => b"leave",
        Place::Save => b"save",
        Place::Check => b"check",
        Place::OneArgument => b"one_argument",
        Place::TwoArguments => b"two_arguments",
        Place::ThreeArguments => b"three_arguments",
        Place::StatBuffer => b"stat_buffer",
        Place::Buffer => b"buffer",
        Place::BufferAt => b"buffer_at",
        Place::Lowered => b"lowered",
        Place::CheckRange => b"check_range",
        Place::Scan => b"scan",
        Place::ScanNext => b"scan_next",
        Place::UnknownCall => b"unknown_call",
        Place::BadAddress => b"bad_address",
        Place::LongPath => b"long_path",
        Place::MoveBreak => b"move_break",
        Place::TellBreak => b"tell_break",
        Place::Scanned => b"scanned",
        Place::PutLength => b"put_length",
        Place::Fill => b"fill",
        Place::Wait => b"wait",
        Place::Take => b"take",
        Place::Restore => b"restore",
        Place::Speak => b"speak",
        Place::CounterText => b"counter_text",
        Place::TrapText => b"trap_text",
        Place::EndText => b"end_text",
        Place::PutNumber => b"put_number",
        Place::PutByte => b"put_byte",
        Place::PutWait => b"put_wait",
        Place::Close => b"close",
        Place::CloseWait => b"close_wait",
        Place::Idle => b"idle",
    }
}

#[tactic(auto, using(crate::proofs::PlaceNames::name_of_is_name))]
fn named(place: Place) -> Name
    ensures { result ≡ name_of place }
{
    Name::new(place_name(place)).unwrap()
}

fn item(row: Row) -> Item
    ensures { result ≡ item_of row }
{
    match row {
        Row::Label(place) => Item::Label(named(place)),
        Row::Lui(rd, imm) => Item::Plain(Insn::Lui { rd, imm }),
        Row::Auipc(rd, imm) => Item::Plain(Insn::Auipc { rd, imm }),
        Row::Addi(rd, rs1, imm) => Item::Plain(Insn::Addi { rd, rs1, imm }),
        Row::Sltiu(rd, rs1, imm) => Item::Plain(Insn::Sltiu { rd, rs1, imm }),
        Row::Andi(rd, rs1, imm) => Item::Plain(Insn::Andi { rd, rs1, imm }),
        Row::Slli(rd, rs1, amount) => Item::Plain(Insn::Slli { rd, rs1, amount }),
        Row::Srli(rd, rs1, amount) => Item::Plain(Insn::Srli { rd, rs1, amount }),
        Row::Add(rd, rs1, rs2) => Item::Plain(Insn::Add { rd, rs1, rs2 }),
        Row::Sub(rd, rs1, rs2) => Item::Plain(Insn::Sub { rd, rs1, rs2 }),
        Row::Srl(rd, rs1, rs2) => Item::Plain(Insn::Srl { rd, rs1, rs2 }),
        Row::Ld(rd, imm, rs1) => Item::Plain(Insn::Ld { rd, rs1, imm }),
        Row::Lbu(rd, imm, rs1) => Item::Plain(Insn::Lbu { rd, rs1, imm }),
        Row::Sd(rs2, imm, rs1) => Item::Plain(Insn::Sd { rs1, rs2, imm }),
        Row::Beq(rs1, rs2, place) => Item::Branch(Cond::Eq, rs1, rs2, named(place)),
        Row::Bne(rs1, rs2, place) => Item::Branch(Cond::Ne, rs1, rs2, named(place)),
        Row::Bltu(rs1, rs2, place) => Item::Branch(Cond::Ltu, rs1, rs2, named(place)),
        Row::Bgeu(rs1, rs2, place) => Item::Branch(Cond::Geu, rs1, rs2, named(place)),
        Row::Jal(rd, place) => Item::Jump(rd, named(place)),
        Row::Jalr(rd, imm, rs1) => Item::Plain(Insn::Jalr { rd, rs1, imm }),
        Row::La(rd, place) => Item::Address(rd, named(place)),
        Row::Csrrw(rd, csr, rs1) => Item::Plain(Insn::Csrrw { rd, rs1, csr }),
        Row::Csrrs(rd, csr, rs1) => Item::Plain(Insn::Csrrs { rd, rs1, csr }),
        Row::Mret => Item::Plain(Insn::Mret),
    }
}

/// The items that rows stand for.
pub fn items_from(alloc: Global, rows: &[Row]) -> Result<Items, AllocError>
    ensures { IfOk result (λ items. items ≡ items_of rows.now) }
{
    let mut items = Items::new(alloc);
    for row in rows {
        items.push(item(*row))?;
    }
    Ok(items)
}
