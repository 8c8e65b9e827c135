// A small target behind a debug module, and a wire to it: a hart that does nothing of its own, beside one doubleword
// that every mapped address names. In each turn the hart makes one step, and then the access comes.
ghost use Rattle.std.specs.Prelude.{◌≡◌, ◌+◌, ◌*◌, ◌/◌, ◌%◌, ◌^◌, ◌<◌, ◌==◌, ℕ, IsTrue, true, Some, None, List};
ghost use Rattle.std.specs.Prelude.{slice_index, []};
ghost use Rattle.std.proofs.Common.{refl, ◌∙◌};
ghost use Rattle.fe_base.specs.DebugModule as spec;
ghost use Rattle.fe_base.specs.DebugModule.{Raises};
ghost use Rattle.fe_base.specs.SampleModule as sample;
ghost use Rattle.fe_base.specs.SampleModule.{IsBench, bench_turn, bench_side, bench_resumed, bench_ran, bench_touched};
ghost use Rattle.fe_base.specs.SampleModule.{bench-turns, bench-side-fits};
ghost use Rattle.fe_base.specs.Wires.{Lowers, StaysUnfailed};

use super::DmiOp::{Nop, Read, Write};
use super::*;
use crate::memory_map::is_beat;
use std::marker::Model;

// The target. The job that waits is a transfer to or from a register, and then perhaps the buffer, or the buffer alone.
#[derive(Drop)]
struct Bench {
    active: bool,
    haltreq: bool,
    resume: bool,
    acked: bool,
    transfer: bool,
    register: u16,
    write: bool,
    then_run: bool,
    value: u64,
    buffer: [u32; 4],
    cmderr: u8,
    halted: bool,
    registers: [u64; 32],
    word: u64,
}

impl Model for Bench {
    ghost use Rattle.fe_base.specs.SampleModule as sample;

    ghost Value = { sample.Bench };

    ghost view = { λ b. record {
      state = record {
        active = b.active;
        haltreq = b.haltreq;
        resume = b.resume;
        acked = b.acked;
        job = sample.job_from b.transfer b.register b.write b.then_run;
        value = b.value;
        buffer = b.buffer;
        cmderr = b.cmderr;
      };
      halted = b.halted;
      registers = b.registers;
      word = b.word;
    } };
}

// The bit of this worth stands in the word.
fn has_bit(word: u32, worth: u32) -> bool
    requires { 0 < worth }
    ensures { result ≡ (word / worth % 2 == 1) }
{
    word / worth % 2 == 1
}

fn is_storage(address: u8) -> bool
    ensures { result ≡ spec.is_storage address }
{
    address == 0x04 || address == 0x05 || (0x20 <= address && address <= 0x23)
}

fn is_unsupported(command: u32) -> bool
    ensures { result ≡ spec.is_unsupported command }
{
    let register = command % 0x1_0000;
    command / 0x100_0000 != 0
        || has_bit(command, 0x8_0000)
        || (has_bit(command, 0x2_0000)
            && (command / 0x10_0000 % 8 != 3 || !(0x1000 <= register && register <= 0x101f)))
}

fn at_offset(base: u64, offset: u32) -> u64
    requires { offset < 4096 }
    ensures { result ≡ spec.at_offset base offset }
{
    let offset = u64::from(offset);
    base.wrapping_add(if offset < 2048 {
        offset
    } else {
        offset + 0xffff_ffff_ffff_f000
    })
}

impl Bench {
    // At reset, with this doubleword.
    #[tactic(auto, using(crate::specs::SampleModule::reset_bench_fits))]
    fn reset(word: u64) -> Bench
        ensures { IsBench result }
    {
        Bench {
            active: false,
            haltreq: false,
            resume: false,
            acked: false,
            transfer: false,
            register: 0,
            write: false,
            then_run: false,
            value: 0,
            buffer: [0; 4],
            cmderr: 0,
            halted: false,
            registers: [0; 32],
            word,
        }
    }

    fn is_busy(&self) -> bool
        ensures { result ≡ spec.is_busy self.now.state.job }
    {
        self.transfer || self.then_run
    }

    // A data register or a word of the buffer.
    fn storage(&self, address: u8) -> u32
        requires { IsTrue (spec.is_storage address) }
        ensures { result ≡ spec.storage self.now.state address }
    {
        match address {
            0x04 => (self.value % 0x1_0000_0000) as u32,
            0x05 => (self.value / 0x1_0000_0000) as u32,
            _ => self.buffer[(address - 0x20) as usize],
        }
    }

    fn dmstatus(&self) -> u32
        ensures { result ≡ spec.dmstatus self.now.state self.now.halted }
    {
        let halts = if self.halted { 0x300 } else { 0xc00 };
        let acks = if self.acked { 0x3_0000 } else { 0 };
        0x82 + halts + acks
    }

    fn abstractcs(&self) -> u32
        ensures { result ≡ spec.abstractcs self.now.state }
    {
        let busy = if self.is_busy() { 0x1000 } else { 0 };
        0x400_0002 + u32::from(self.cmderr) * 256 + busy
    }

    fn read(&self, address: u8) -> u32
        ensures { result ≡ spec.register_of self.now.state self.now.halted address }
    {
        match address {
            0x11 => self.dmstatus(),
            _ if !self.active => 0,
            0x10 => 1,
            0x16 => self.abstractcs(),
            _ if is_storage(address) => self.storage(address),
            _ => 0,
        }
    }

    // Keeps an error where there is none.
    fn fail(&mut self, error: u8)
        ensures { self.new ≡ record self.old { state = spec.failed_by error self.old.state } }
    {
        if self.cmderr == 0 {
            self.cmderr = error;
        }
    }

    fn command(&mut self, command: u32)
        ensures { self.new ≡ record self.old { state = spec.commanded self.old.state self.old.halted command } }
    {
        if self.is_busy() {
            self.fail(1);
        } else if self.cmderr != 0 {} else if is_unsupported(command) {
            self.cmderr = 2;
        } else if !self.halted {
            self.cmderr = 4;
        } else {
            self.transfer = has_bit(command, 0x2_0000);
            self.register = (command % 0x1_0000).saturating_sub(0x1000) as u16;
            self.write = has_bit(command, 0x1_0000);
            self.then_run = has_bit(command, 0x4_0000);
        }
    }

    fn deactivate(&mut self)
        ensures { self.new ≡ record self.old { state = spec.reset_module } }
    {
        self.active = false;
        self.haltreq = false;
        self.resume = false;
        self.acked = false;
        self.transfer = false;
        self.then_run = false;
        self.value = 0;
        self.buffer = [0; 4];
        self.cmderr = 0;
    }

    fn control(&mut self, word: u32)
        ensures { self.new ≡ record self.old { state = spec.controlled self.old.state self.old.halted word } }
    {
        if !has_bit(word, 1) {
            self.deactivate();
            return;
        }
        self.haltreq = has_bit(word, 0x8000_0000);
        if has_bit(word, 0x4000_0000) && !self.haltreq && self.halted {
            self.resume = true;
            self.acked = false;
        }
    }

    fn store(&mut self, address: u8, word: u32)
        requires { IsTrue (spec.is_storage address) }
        ensures { self.new ≡ record self.old { state = spec.with_storage self.old.state address word } }
    {
        match address {
            0x04 => self.value = self.value - self.value % 0x1_0000_0000 + u64::from(word),
            0x05 => self.value = self.value % 0x1_0000_0000 + u64::from(word) * 0x1_0000_0000,
            _ => self.buffer[(address - 0x20) as usize] = word,
        }
    }

    // A write of an active module's register.
    fn write_active(&mut self, address: u8, word: u32)
        ensures { self.new ≡ record self.old { state = spec.wrote self.old.state self.old.halted address word } }
    {
        let busy = self.is_busy();
        match address {
            0x10 => self.control(word),
            0x17 => self.command(word),
            0x16 if busy => self.fail(1),
            0x16 => self.cmderr &= 7 - (word / 0x100 % 8) as u8,
            _ if is_storage(address) && busy => self.fail(1),
            _ if is_storage(address) => self.store(address, word),
            _ => (),
        }
    }

    fn write(&mut self, address: u8, word: u32)
        ensures { self.new ≡ record self.old { state = spec.after_write self.old.state self.old.halted address word } }
    {
        if self.active {
            self.write_active(address, word);
        } else if address == 0x10 && has_bit(word, 1) {
            self.active = true;
        }
    }

    #[tactic(auto, unfolding(crate::specs::DebugModule::module_access))]
    fn access(&mut self, op: DmiOp, address: u8, word: u32) -> u32
        ensures after { self.new
            ≡ (sample.bench_access self.old (record { op = op; address = address; value = word })).0 }
        ensures reply { result
            ≡ (sample.bench_access self.old (record { op = op; address = address; value = word })).1 }
    {
        match op {
            DmiOp::Nop => 0,
            DmiOp::Read => {
                let reply = self.read(address);
                if self.active && self.is_busy() && is_storage(address) {
                    self.fail(1);
                }
                reply
            }
            DmiOp::Write => {
                self.write(address, word);
                0
            }
        }
    }

    fn register(&self, n: u16) -> u64
        ensures { result ≡ slice_index self.now.registers n }
    {
        self.registers.get(n as usize).copied().unwrap_or(0)
    }

    // A write of x0 does nothing.
    #[tactic(auto, using(crate::specs::SampleModule::set_beyond))]
    fn set_register(&mut self, n: u16, value: u64)
        ensures { self.new ≡ record self.old { registers = spec.with_register self.old.registers n value } }
    {
        if n != 0 && n < 32 {
            self.registers[n as usize] = value;
        }
    }

    // LD, where it is known.
    fn load(&mut self, rd: u16, at: u64, single: bool)
        ensures { self.new ≡ sample.buffer_stepped (spec.known_step (spec.BufferLoad rd at) single) self.old }
    {
        if single && is_beat(at) {
            self.set_register(rd, self.word);
        } else {
            self.cmderr = 3;
        }
    }

    // SD, where it is known.
    fn save(&mut self, at: u64, value: u64, single: bool)
        ensures { self.new ≡ sample.buffer_stepped (spec.known_step (spec.BufferStore at value) single) self.old }
    {
        if single && is_beat(at) {
            self.word = value;
        } else {
            self.cmderr = 3;
        }
    }

    fn run_buffer(&mut self)
        ensures { self.new ≡ sample.buffer_ran true self.old }
    {
        let word = self.buffer[0];
        let single = self.buffer[1] == 0x0010_0073;
        let base = self.register((word / 0x8000 % 32) as u16);
        if word % 128 == 0x03 && word / 0x1000 % 8 == 3 {
            let at = at_offset(base, word / 0x10_0000);
            self.load((word / 0x80 % 32) as u16, at, single);
        } else if word % 128 == 0x23 && word / 0x1000 % 8 == 3 {
            let at = at_offset(base, word / 0x200_0000 * 32 + word / 0x80 % 32);
            let value = self.register((word / 0x10_0000 % 32) as u16);
            self.save(at, value, single);
        } else {
            self.cmderr = 3;
        }
    }

    // The transfer of a job.
    fn move_register(&mut self, n: u16, write: bool)
        ensures { self.new ≡ sample.moved n write self.old }
    {
        self.transfer = false;
        self.then_run = false;
        if write {
            self.set_register(n, self.value);
        } else {
            self.value = self.register(n);
        }
    }

    fn work(&mut self)
        ensures { self.new ≡ sample.worked self.old.state.job self.old }
    {
        let run = self.then_run;
        if self.transfer {
            self.move_register(self.register, self.write);
            if run {
                self.run_buffer();
            }
        } else if run {
            self.then_run = false;
            self.run_buffer();
        }
    }

    #[tactic(auto, unfolding(crate::specs::SampleModule::bench_step))]
    fn step(&mut self)
        ensures { self.new ≡ sample.bench_step self.old }
    {
        if !self.halted {
            if self.haltreq {
                self.halted = true;
            }
        } else if self.resume {
            self.resume = false;
            self.acked = true;
            self.halted = false;
        } else {
            self.work();
        }
    }
}

// Counts the command error that a reply tells.
fn note(raised: &mut [u64; 8], op: DmiOp, address: u8, reply: u32)
    ensures counts { raised.new ≡ sample.noted (sample.error_read op address reply) raised.old }
    ensures fit { (n : ℕ) → slice_index raised.old n < 2 ^ 64 }
{
    if op != DmiOp::Read || address != 0x16 {
        return;
    }
    let error = (reply / 0x100 % 8) as usize;
    if error != 0 {
        raised[error] = raised[error].saturating_add(1);
    }
}

// A wire to the target, with so many transactions, and how often it read each command error.
#[derive(Drop)]
struct BenchWire {
    bench: Bench,
    left: u64,
    raised: [u64; 8],
}

impl DmiWire for BenchWire {
    ghost State = { sample.Bench };

    ghost View = { List ℕ × ℕ };

    ghost Rest = { ℕ };

    ghost resumed = { bench_resumed };

    ghost told = { λ w. Some w.bench };

    ghost valid = { IsBench };

    ghost usable = { λ w. IsBench w.bench };

    ghost kept = { λ _. record { lent = []; capacity = None } };

    ghost left = { λ w. w.left };

    ghost faults = { λ _. 0 };

    ghost steady = { λ _. Unit {0} };

    ghost positive = { λ _. Unit {0} };

    ghost raised = { λ w error. slice_index w.raised error };

    ghost module_of = { λ b. b.state };

    ghost side = { bench_side };

    ghost next = { bench_turn };

    ghost lost = { bench_turn };

    ghost ran = { bench_ran };

    ghost touched = { bench_touched };

    #[tactic(auto, using(crate::specs::SampleModule::turn_keeps, crate::specs::SampleModule::noted_raises))]
    fn access(&mut self, op: DmiOp, address: u8, value: u32) -> Result<u32, WireStop> {
        self.left = self.left.checked_sub(1).ok_or(WireStop::Spent)?;
        self.bench.step();
        let reply = self.bench.access(op, address, value);
        note(&mut self.raised, op, address, reply);
        Ok(reply)
    }

    ghost tells_valid = { λ w u. u };

    ghost module_fits = { λ b ok. ok.state_fits };

    ghost side_fits = { bench-side-fits };

    ghost ran_none = { λ v. refl };

    ghost ran_more = { λ a b c m n p q. q ∙ p };

    ghost turns = { bench-turns };

    ghost turns_lost = { bench-turns };
}

// An access and the reply that is wanted.
#[derive(Clone, Copy)]
struct Row(DmiOp, u8, u32, u32);

// How many of these accesses are not answered as they should.
fn wrong_replies<W: DmiWire>(wire: &mut W, rows: &[Row]) -> Result<usize, WireStop>
    requires { W.usable wire.old }
    ensures { W.usable wire.new }
{
    let mut wrong = rows.len();
    for row in rows {
        if wire.access(row.0, row.1, row.2)? == row.3 {
            wrong = wrong.saturating_sub(1);
        }
    }
    Ok(wrong)
}

// The hart is halted by the step behind the access that asks for it. While the module is not active, nothing is kept.
fn halting() -> [Row; 7] {
    [
        Row(Write, 0x04, 5, 0),
        Row(Read, 0x04, 0, 0),
        Row(Read, 0x11, 0, 0xc82),
        Row(Write, 0x10, 1, 0),
        Row(Read, 0x04, 0, 0),
        Row(Write, 0x10, 0x8000_0001, 0),
        Row(Read, 0x11, 0, 0x382),
    ]
}

// x8 is written, and x9 is loaded from there by the buffer: LD x9, 0(x8) and EBREAK.
fn loading() -> [Row; 12] {
    [
        Row(Write, 0x04, 0x2_0000, 0),
        Row(Write, 0x17, 0x0033_1008, 0),
        Row(Read, 0x16, 0, 0x0400_0002),
        Row(Write, 0x20, 0x0004_3483, 0),
        Row(Write, 0x21, 0x0010_0073, 0),
        Row(Read, 0x20, 0, 0x0004_3483),
        Row(Write, 0x17, 0x0004_0000, 0),
        Row(Read, 0x16, 0, 0x0400_0002),
        Row(Write, 0x17, 0x0032_1009, 0),
        Row(Read, 0x16, 0, 0x0400_0002),
        Row(Read, 0x04, 0, 0x5566_7788),
        Row(Read, 0x05, 0, 0x1122_3344),
    ]
}

// The low half of x9 is written, and x9 stored there in one job, SD x9, 0(x8) and EBREAK; then x8, which names nothing
// mapped, ends the buffer by an exception, and no more commands are taken.
fn storing() -> [Row; 10] {
    [
        Row(Write, 0x04, 0x99, 0),
        Row(Write, 0x20, 0x0094_3023, 0),
        Row(Write, 0x17, 0x0037_1009, 0),
        Row(Read, 0x16, 0, 0x0400_0002),
        Row(Write, 0x04, 0, 0),
        Row(Write, 0x17, 0x0037_1008, 0),
        Row(Read, 0x16, 0, 0x0400_0302),
        Row(Write, 0x17, 0x0032_1008, 0),
        Row(Read, 0x16, 0, 0x0400_0302),
        Row(Write, 0x16, 0x700, 0),
    ]
}

// The hart is resumed, and takes no command then.
fn resuming() -> [Row; 5] {
    [
        Row(Write, 0x10, 0x4000_0001, 0),
        Row(Read, 0x11, 0, 0x3_0c82),
        Row(Write, 0x17, 0x0032_1008, 0),
        Row(Read, 0x16, 0, 0x0400_0402),
        Row(Nop, 0x16, 0, 0),
    ]
}

#[test]
fn doublewords_by_the_buffer(rt: HostRuntime) {
    let mut wire = BenchWire {
        bench: Bench::reset(0x1122_3344_5566_7788),
        left: 34,
        raised: [0; 8],
    };
    assert_eq!(rt; wrong_replies(&mut wire, &halting()), Ok(0));
    assert_eq!(rt; wrong_replies(&mut wire, &loading()), Ok(0));
    assert_eq!(rt; wrong_replies(&mut wire, &storing()), Ok(0));
    assert_eq!(rt; wire.bench.word, 0x1122_3344_0000_0099);
    assert_eq!(rt; wrong_replies(&mut wire, &resuming()), Ok(0));
    assert_eq!(rt; wire.raised, [0, 0, 0, 2, 1, 0, 0, 0]);
    assert_eq!(rt; wire.access(Nop, 0, 0), Err(WireStop::Spent));
}
