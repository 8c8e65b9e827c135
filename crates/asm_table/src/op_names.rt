// The name of what a line does.
ghost use Rattle.std.specs.Prelude.{◌≡◌, Some};
ghost use Rattle.asm_table.specs.Table.{op_of};

use crate::mnemonics::{
    BareOp, CsrImmediateOp, CsrOp, ImmediateOp, LoadOp, Op, RegisterOp, ShiftOp, ShortShiftOp,
    StoreOp, UpperOp,
};
use rv_decode::Cond;

#[tactic(auto, unfolding(crate::specs::Table::op_of))]
fn registers_name(op: RegisterOp) -> &'static [u8]
    ensures { op_of result.now ≡ Some (Op.Registers op) }
{
    match op {
        RegisterOp::Add => b"add",
        RegisterOp::Sll => b"sll",
        RegisterOp::Slt => b"slt",
        RegisterOp::Sltu => b"sltu",
        RegisterOp::Xor => b"xor",
        RegisterOp::Srl => b"srl",
        RegisterOp::Or => b"or",
        RegisterOp::And => b"and",
        RegisterOp::Sub => b"sub",
        RegisterOp::Sra => b"sra",
        RegisterOp::Mul => b"mul",
        RegisterOp::Mulh => b"mulh",
        RegisterOp::Mulhsu => b"mulhsu",
        RegisterOp::Mulhu => b"mulhu",
        RegisterOp::Div => b"div",
        RegisterOp::Divu => b"divu",
        RegisterOp::Rem => b"rem",
        RegisterOp::Remu => b"remu",
        RegisterOp::Addw => b"addw",
        RegisterOp::Sllw => b"sllw",
        RegisterOp::Srlw => b"srlw",
        RegisterOp::Subw => b"subw",
        RegisterOp::Sraw => b"sraw",
        RegisterOp::Mulw => b"mulw",
        RegisterOp::Divw => b"divw",
        RegisterOp::Divuw => b"divuw",
        RegisterOp::Remw => b"remw",
        RegisterOp::Remuw => b"remuw",
    }
}

#[tactic(auto, unfolding(crate::specs::Table::op_of))]
fn immediate_name(op: ImmediateOp) -> &'static [u8]
    ensures { op_of result.now ≡ Some (Op.Immediate op) }
{
    match op {
        ImmediateOp::Addi => b"addi",
        ImmediateOp::Slti => b"slti",
        ImmediateOp::Sltiu => b"sltiu",
        ImmediateOp::Xori => b"xori",
        ImmediateOp::Ori => b"ori",
        ImmediateOp::Andi => b"andi",
        ImmediateOp::Addiw => b"addiw",
    }
}

#[tactic(auto, unfolding(crate::specs::Table::op_of))]
fn shift_name(op: ShiftOp) -> &'static [u8]
    ensures { op_of result.now ≡ Some (Op.Shift op) }
{
    match op {
        ShiftOp::Slli => b"slli",
        ShiftOp::Srli => b"srli",
        ShiftOp::Srai => b"srai",
    }
}

#[tactic(auto, unfolding(crate::specs::Table::op_of))]
fn short_shift_name(op: ShortShiftOp) -> &'static [u8]
    ensures { op_of result.now ≡ Some (Op.ShortShift op) }
{
    match op {
        ShortShiftOp::Slliw => b"slliw",
        ShortShiftOp::Srliw => b"srliw",
        ShortShiftOp::Sraiw => b"sraiw",
    }
}

#[tactic(auto, unfolding(crate::specs::Table::op_of))]
fn load_name(op: LoadOp) -> &'static [u8]
    ensures { op_of result.now ≡ Some (Op.Load op) }
{
    match op {
        LoadOp::Jalr => b"jalr",
        LoadOp::Lb => b"lb",
        LoadOp::Lh => b"lh",
        LoadOp::Lw => b"lw",
        LoadOp::Ld => b"ld",
        LoadOp::Lbu => b"lbu",
        LoadOp::Lhu => b"lhu",
        LoadOp::Lwu => b"lwu",
    }
}

#[tactic(auto, unfolding(crate::specs::Table::op_of))]
fn store_name(op: StoreOp) -> &'static [u8]
    ensures { op_of result.now ≡ Some (Op.Store op) }
{
    match op {
        StoreOp::Sb => b"sb",
        StoreOp::Sh => b"sh",
        StoreOp::Sw => b"sw",
        StoreOp::Sd => b"sd",
    }
}

#[tactic(auto, unfolding(crate::specs::Table::op_of))]
fn upper_name(op: UpperOp) -> &'static [u8]
    ensures { op_of result.now ≡ Some (Op.Upper op) }
{
    match op {
        UpperOp::Lui => b"lui",
        UpperOp::Auipc => b"auipc",
    }
}

#[tactic(auto, unfolding(crate::specs::Table::op_of))]
fn csr_name(op: CsrOp) -> &'static [u8]
    ensures { op_of result.now ≡ Some (Op.Csr op) }
{
    match op {
        CsrOp::Csrrw => b"csrrw",
        CsrOp::Csrrs => b"csrrs",
        CsrOp::Csrrc => b"csrrc",
    }
}

#[tactic(auto, unfolding(crate::specs::Table::op_of))]
fn csr_immediate_name(op: CsrImmediateOp) -> &'static [u8]
    ensures { op_of result.now ≡ Some (Op.CsrImmediate op) }
{
    match op {
        CsrImmediateOp::Csrrwi => b"csrrwi",
        CsrImmediateOp::Csrrsi => b"csrrsi",
        CsrImmediateOp::Csrrci => b"csrrci",
    }
}

#[tactic(auto, unfolding(crate::specs::Table::op_of))]
fn bare_name(op: BareOp) -> &'static [u8]
    ensures { op_of result.now ≡ Some (Op.Bare op) }
{
    match op {
        BareOp::Ecall => b"ecall",
        BareOp::Ebreak => b"ebreak",
        BareOp::Mret => b"mret",
        BareOp::Wfi => b"wfi",
        BareOp::Fence => b"fence",
        BareOp::FenceI => b"fence.i",
    }
}

#[tactic(auto, unfolding(crate::specs::Table::op_of))]
fn branch_name(cond: Cond) -> &'static [u8]
    ensures { op_of result.now ≡ Some (Op.Branch cond) }
{
    match cond {
        Cond::Eq => b"beq",
        Cond::Ne => b"bne",
        Cond::Lt => b"blt",
        Cond::Ge => b"bge",
        Cond::Ltu => b"bltu",
        Cond::Geu => b"bgeu",
    }
}

/// The name that stands for this.
#[tactic(auto, unfolding(crate::specs::Table::op_of))]
pub fn name_of(op: Op) -> &'static [u8]
    ensures { op_of result.now ≡ Some op }
{
    match op {
        Op::Registers(op) => registers_name(op),
        Op::Immediate(op) => immediate_name(op),
        Op::Shift(op) => shift_name(op),
        Op::ShortShift(op) => short_shift_name(op),
        Op::Load(op) => load_name(op),
        Op::Store(op) => store_name(op),
        Op::Upper(op) => upper_name(op),
        Op::Csr(op) => csr_name(op),
        Op::CsrImmediate(op) => csr_immediate_name(op),
        Op::Bare(op) => bare_name(op),
        Op::Branch(cond) => branch_name(cond),
        Op::Jump => b"jal",
        Op::Address => b"la",
        Op::Dword => b".dword",
        Op::Ascii => b".ascii",
    }
}
