// The registers.
ghost use Rattle.std.specs.Prelude.{◌≡◌, ◌<◌, ◌≤◌, ◌^◌, IsTrue};
ghost use Rattle.std.specs.Bool.{OnTrue, OnFalse};
ghost use Rattle.core.specs.Bool.{then_some};
ghost use Rattle.rv_csr.specs.CsrTable as spec;
ghost use Rattle.rv_csr.specs.CsrTable.{reset_csrs, csr_value, with_csr, csr_read, csr_write, is_allowed, IsCsrs};
ghost use Rattle.rv_csr.specs.OpenArea.{is_open};
ghost use Rattle.rv_csr.specs.Traps.{after_trap, after_return};
ghost use Rattle.rv_csr.specs.declared.privilege.Mode.TheVariants as mode_of;

use crate::pmp::{Pmp, PmpEntry};
use crate::privilege::{Access, Mode};
use crate::table::{Csr, aligned, bits, csr_of, instruction_aligned, is_read_only, is_set};
use std::marker::Model;

/// The control and status registers of a hart, seen as what they keep.
#[derive(Drop)]
pub struct Csrs {
    mstatus_mie: bool,
    mstatus_mpie: bool,
    mstatus_mpp: Mode,
    mtvec: u64,
    mscratch: u64,
    mepc: u64,
    mcause: u64,
    mtval: u64,
    pmp: Pmp,
}

impl Model for Csrs {
    ghost use Rattle.std.specs.Prelude.{◌≡◌, ◌%◌};
    ghost use Rattle.rv_decode.specs.Alignment.{instruction_alignment};
    ghost use Rattle.rv_csr.specs.CsrTable.{CsrState};
    ghost use Rattle.rv_csr.specs.Pmp.{IsEntry};

    ghost Value = { CsrState };

    ghost view = { λ c. record {
      mstatus_mie = c.mstatus_mie;
      mstatus_mpie = c.mstatus_mpie;
      mstatus_mpp = c.mstatus_mpp;
      mtvec = c.mtvec;
      mscratch = c.mscratch;
      mepc = c.mepc;
      mcause = c.mcause;
      mtval = c.mtval;
      pmp = c.pmp;
    } };

    ghost invariant = { λ c.
        (c.mtvec % 4 ≡ 0) × (c.mepc % instruction_alignment ≡ 0) × IsEntry c.pmp.entry0 × IsEntry c.pmp.entry1 };
}

impl Csrs {
    /// The registers at reset: 0 but for their fixed bits.
    pub fn reset() -> Csrs
        ensures value { result ≡ reset_csrs }
        ensures range { IsCsrs result }
    {
        Csrs {
            mstatus_mie: false,
            mstatus_mpie: false,
            mstatus_mpp: Mode::User,
            mtvec: 0,
            mscratch: 0,
            mepc: 0,
            mcause: 0,
            mtval: 0,
            pmp: Pmp::new(PmpEntry::off(), PmpEntry::off()),
        }
    }

    /// The register of a number, as an instruction in a mode reads it. None where that is illegal: in user mode, and
    /// where there is no such register (Privileged Architecture, 2.1).
    pub fn read(&self, number: u16, mode: Mode) -> Option<u64>
        ensures { result ≡ csr_read number mode self.now }
    {
        match mode {
            Mode::User => None,
            Mode::Machine => Some(self.value(csr_of(number)?)),
        }
    }

    /// Writes the register of a number, as an instruction in a mode does; it keeps what it can hold. False, and nothing
    /// is changed, where that is illegal: in user mode, where there is no such register, and where it is only read
    /// (Privileged Architecture, 2.1).
    pub fn write(&mut self, number: u16, value: u64, mode: Mode) -> bool
        ensures after { csr_write number value mode self.old ≡ then_some result self.new }
        ensures refused { OnFalse result (self.new ≡ self.old) }
        ensures range { OnTrue result (IsCsrs self.new) }
    {
        if mode == Mode::User || is_read_only(number) {
            return false;
        }
        let Some(csr) = csr_of(number) else {
            return false;
        };
        self.set(csr, value);
        true
    }

    /// A trap of this cause and value, taken at `pc` in a mode. Answers the address of the trap's handler (Privileged
    /// Architecture, 3.1.6.1 and 3.1.7).
    pub fn enter_trap(&mut self, cause: u64, value: u64, pc: u64, mode: Mode) -> u64
        ensures handler { result ≡ self.old.mtvec }
        ensures after { self.new ≡ after_trap cause value pc mode self.old }
        ensures range { IsCsrs self.new }
    {
        self.mepc = instruction_aligned(pc);
        self.mcause = cause;
        self.mtval = value;
        self.mstatus_mpie = self.mstatus_mie;
        self.mstatus_mie = false;
        self.mstatus_mpp = mode;
        self.mtvec
    }

    /// MRET. Answers the mode and the address at which the hart goes on (Privileged Architecture, 3.3.2).
    pub fn leave_trap(&mut self) -> (Mode, u64)
        ensures mode { result.0 ≡ self.old.mstatus_mpp }
        ensures pc { result.1 ≡ self.old.mepc }
        ensures after { self.new ≡ after_return self.old }
        ensures range { IsCsrs self.new }
    {
        let back = (self.mstatus_mpp, self.mepc);
        self.mstatus_mie = self.mstatus_mpie;
        self.mstatus_mpie = true;
        self.mstatus_mpp = Mode::User;
        back
    }

    /// The PMP allows an access of `width` bytes at `at`, whose addresses go on modulo 2^64. One of no bytes is matched
    /// by no entry (Privileged Architecture, 3.7.1).
    #[inline(always)]
    #[tactic(auto, unfolding(crate::specs::CsrTable::is_allowed))]
    pub fn allows(&self, at: u64, width: u64, access: Access, mode: Mode) -> bool
        ensures { result ≡ is_allowed self.now at width access mode }
    {
        mode == Mode::Machine || self.pmp.allows(access, at, width)
    }

    /// The access, of user mode, stands whole in the user area, and the PMP leaves all of that open to accesses of its
    /// kind.
    #[inline(always)]
    #[tactic(auto, unfolding(crate::specs::CsrTable::is_allowed))]
    pub fn is_open(&self, at: u64, width: u64, access: Access) -> bool
        requires some { 0 < width }
        requires few { width ≤ 8 }
        ensures value { result ≡ is_open self.now.pmp.entry0 self.now.pmp.entry1 access at width }
        ensures allowed { IsTrue result → IsTrue (is_allowed self.now at width access mode_of.User) }
    {
        self.pmp.is_open(access, at, width)
    }

    fn value(&self, csr: Csr) -> u64
        ensures { result ≡ csr_value csr self.now }
    {
        match csr {
            Csr::Mstatus => self.mstatus(),
            Csr::Misa => 0x8000_0000_0010_1100,
            Csr::Mie | Csr::Mip | Csr::Mcounteren | Csr::Mhartid => 0,
            Csr::Mtvec => self.mtvec,
            Csr::Mscratch => self.mscratch,
            Csr::Mepc => self.mepc,
            Csr::Mcause => self.mcause,
            Csr::Mtval => self.mtval,
            Csr::Pmpcfg0 => self.pmp.entry0().configuration()
                + self.pmp.entry1().configuration() * 0x100,
            Csr::Pmpaddr0 => self.pmp.entry0().end / 4,
            Csr::Pmpaddr1 => self.pmp.entry1().end / 4,
        }
    }

    fn mstatus(&self) -> u64
        ensures { result ≡ spec.mstatus_of self.now }
    {
        u64::from(self.mstatus_mie) * 0x8
            + u64::from(self.mstatus_mpie) * 0x80
            + self.mstatus_mpp.number() * 0x800
            + 0x2_0000_0000
    }

    fn set(&mut self, csr: Csr, value: u64)
        ensures after { self.new ≡ with_csr csr value self.old }
        ensures range { IsCsrs self.new }
    {
        match csr {
            Csr::Mstatus => {
                self.mstatus_mie = is_set(value, 3);
                self.mstatus_mpie = is_set(value, 7);
                self.mstatus_mpp = Mode::kept(bits(value, 11, 2));
            }
            Csr::Misa | Csr::Mie | Csr::Mip | Csr::Mcounteren | Csr::Mhartid => {}
            Csr::Mtvec => self.mtvec = aligned(value),
            Csr::Mscratch => self.mscratch = value,
            Csr::Mepc => self.mepc = instruction_aligned(value),
            Csr::Mcause => self.mcause = value,
            Csr::Mtval => self.mtval = value,
            Csr::Pmpcfg0 => {
                let entry0 = self.pmp.entry0().configured(bits(value, 0, 8));
                let entry1 = self.pmp.entry1().configured(bits(value, 8, 8));
                self.pmp = Pmp::new(entry0, entry1);
            }
            Csr::Pmpaddr0 => {
                let entry0 = self.pmp.entry0().ending(value);
                self.pmp = Pmp::new(entry0, self.pmp.entry1());
            }
            Csr::Pmpaddr1 => {
                let entry1 = self.pmp.entry1().ending(value);
                self.pmp = Pmp::new(self.pmp.entry0(), entry1);
            }
        }
    }
}
