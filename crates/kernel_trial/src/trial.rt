// A hart with the kernel, and a host that plays its part by the mailbox.

use crate::calls::{Call, Outcome, PATHS};
use crate::traps::Trap;
use fe_base::memory_map::{BOOT, FROMHOST, KERNEL_START, REQUEST, START_WORD, TOHOST};
use guest_memory::{Bus, is_ram};
use rv_csr::Mode;
use rv_hart::{DebugLines, Hart, Job};
use std::alloc::{AllocError, Global};

/// Where programs begin here.
pub const ENTRY: u64 = 0x1_0000;

const FIRST_BREAK: u64 = 0x1_2000;

const STACK_TOP: u64 = 0x100_0000;

// More steps than the kernel takes for the longest path.
const PATIENCE: u64 = 40_000;

// The instruction that does nothing, and ECALL.
const NOP: u32 = 0x0000_0013;

const ECALL: u32 = 0x0000_0073;

// A program that writes `Hi` and ends, by LLVM's assembler.
static HI: [u32; 10] = [
    0x0010_0513,
    0x0000_0597,
    0x0205_8593,
    0x0030_0613,
    0x0400_0893,
    0x0000_0073,
    0x0000_0513,
    0x05d0_0893,
    0x0000_0073,
    0x000a_6948,
];

const QUIET: DebugLines = DebugLines {
    halt: false,
    resume: false,
    acked: false,
    job: Job::Idle,
    value: 0,
    buffer: [0; 4],
    error: 0,
};

/// Where the hart stopped: at a word for the host, or in the program.
#[derive(Clone, Copy, PartialEq, Eq)]
pub enum Stop {
    Posted(u64),
    InProgram,
    Nowhere,
}

/// The hart and its memory.
#[derive(Drop)]
pub struct Trial {
    hart: Hart,
    bus: Bus,
}

impl Trial {
    /// A target whose kernel area holds this image.
    pub fn new(alloc: Global, image: &[u8]) -> Result<Trial, AllocError> {
        let mut bus = Bus::new(alloc)?;
        let mut at = KERNEL_START;
        for byte in image {
            put_byte(&mut bus, at, *byte);
            at = at.wrapping_add(1);
        }
        Ok(Trial {
            hart: Hart::reset(),
            bus,
        })
    }

    fn step(&mut self) {
        let mut lines = QUIET;
        self.hart.step(&mut self.bus, &mut lines);
    }

    fn word(&self, at: u64) -> u64 {
        self.bus.read_beat(at).unwrap_or(0)
    }

    // Steps until there is a word for the host or the hart is in the program, and how many they were.
    fn run(&mut self) -> (Stop, u64) {
        for count in 0..PATIENCE {
            let word = self.word(TOHOST);
            if word != 0 {
                return (Stop::Posted(word), count);
            }
            if self.hart.mode == Mode::User {
                return (Stop::InProgram, count);
            }
            self.step();
        }
        (Stop::Nowhere, PATIENCE)
    }

    // Steps on, in the program too, until there is a word for the host.
    fn run_to_post(&mut self) {
        for _ in 0..PATIENCE {
            if self.word(TOHOST) != 0 {
                break;
            }
            self.step();
        }
    }

    // The host's part: takes the word, and answers the request.
    fn answer(&mut self, outcome: u64) {
        self.bus.write_beat(TOHOST, 0);
        self.bus.write_beat(REQUEST, outcome);
        self.bus.write_beat(FROMHOST, 1);
    }

    fn holds_request(&self, number: u64, arguments: &[u64; 5]) -> bool {
        let mut at = REQUEST + 8;
        for argument in arguments {
            if self.word(at) != *argument {
                return false;
            }
            at = at.wrapping_add(8);
        }
        self.word(REQUEST) == number && self.word(REQUEST + 48) == 0 && self.word(REQUEST + 56) == 0
    }

    // The mailbox and the request as they are at reset.
    fn clear_mailbox(&mut self) {
        self.bus.write_beat(TOHOST, 0);
        self.bus.write_beat(FROMHOST, 0);
        for n in 0..8u64 {
            self.bus.write_beat(REQUEST + 8 * n, 0);
        }
    }

    /// Lets the hart go from reset into the program: the steps up to the post, and those after it.
    pub fn boot(&mut self) -> Result<(u64, u64), &'static str> {
        self.hart = Hart::reset();
        self.bus.write_beat(BOOT, ENTRY);
        self.bus.write_beat(BOOT + 8, FIRST_BREAK);
        self.bus.write_beat(START_WORD, 1);
        self.clear_mailbox();
        self.step();
        let (stop, to_post) = self.run();
        if stop != Stop::Posted(REQUEST) {
            return Err("the kernel does not ask for the main vars");
        }
        if !self.holds_request(2011, &[STACK_TOP, 0x1_0000, 0, 0, 0]) {
            return Err("the kernel asks for other main vars");
        }
        self.answer(0);
        let (stop, to_program) = self.run();
        if stop != Stop::InProgram || self.hart.pc != ENTRY || self.word(FROMHOST) != 0 {
            return Err("the kernel does not enter the program");
        }
        for n in 0..32u8 {
            let wanted = if n == 2 { STACK_TOP } else { 0 };
            if self.hart.read_reg(n) != wanted {
                return Err("the program begins with other registers");
            }
        }
        Ok((to_post, to_program))
    }

    /// Runs a whole program after a boot: one that writes `Hi` and ends.
    pub fn hi(&mut self) -> Result<(), &'static str> {
        let mut at = ENTRY;
        for word in &HI {
            if is_ram(at, 4) {
                self.bus.store(at, 4, u64::from(*word));
            }
            at = at.wrapping_add(4);
        }
        self.run_to_post();
        if !self.holds_request(64, &[1, ENTRY + 36, 3, 0, 0]) {
            return Err("the program writes something else");
        }
        self.answer(3);
        self.run_to_post();
        if !self.holds_request(93, &[0; 5]) || self.hart.user_steps() != 9 {
            return Err("the program does not end");
        }
        Ok(())
    }

    // Two instructions where programs begin.
    fn place_code(&mut self, first: u32, second: u32) {
        let code = u64::from(second) << 32 | u64::from(first);
        self.bus.write_beat(ENTRY, code);
    }

    /// Puts the paths into memory.
    pub fn place_paths(&mut self) {
        for (start, letters, ends) in &PATHS {
            let mut at = *start;
            for _ in 0..*letters {
                put_byte(&mut self.bus, at, b'x');
                at = at.wrapping_add(1);
            }
            if *ends {
                put_byte(&mut self.bus, at, 0);
            }
        }
    }

    // Gives each register a value of its own, and the call's to those that it reads.
    fn set_registers(&mut self, call: &Call) {
        for n in 1..32u8 {
            let own = u64::from(n).wrapping_mul(0x0101_0101_0101_0101);
            self.hart.write_reg(n, own);
        }
        self.hart.write_reg(17, call.number);
        for n in 0..6u8 {
            self.hart.write_reg(10 + n, call.arguments[n as usize]);
        }
    }

    fn registers(&self) -> [u64; 32] {
        let mut registers = [0; 32];
        for n in 0..32u8 {
            registers[n as usize] = self.hart.read_reg(n);
        }
        registers
    }

    /// Makes the call from the program, and answers it: the kernel's steps.
    pub fn call(&mut self, call: &Call) -> Result<u64, &'static str> {
        self.place_code(ECALL, NOP);
        self.hart.pc = ENTRY;
        self.set_registers(call);
        let mut wanted = self.registers();
        self.step();
        let (stop, first_steps) = self.run();
        let mut steps = first_steps;
        match call.outcome {
            Outcome::Answers(answer) => wanted[10] = answer,
            Outcome::Posts(arguments) => {
                if stop != Stop::Posted(REQUEST) {
                    return Err("nothing is posted");
                }
                if !self.holds_request(call.number, &arguments) {
                    return Err("another request is posted");
                }
                wanted[10] = call.number.wrapping_mul(0xa5a5_a5a5_a5a5_a5a5);
                self.answer(wanted[10]);
                steps = steps.wrapping_add(self.run().1);
            }
        }
        if self.word(TOHOST) != 0 || self.word(FROMHOST) != 0 || self.hart.mode != Mode::User {
            return Err("the kernel does not return");
        }
        if self.hart.pc != ENTRY + 4 {
            return Err("the kernel returns elsewhere");
        }
        if self.registers() != wanted {
            return Err("a register is not restored");
        }
        Ok(steps)
    }

    /// Lets the program trap, and takes the bytes that it says: the steps up to the first byte, and the most between two.
    pub fn trap(&mut self, trap: &Trap) -> Result<(u64, u64), &'static str> {
        self.place_code(trap.word, NOP);
        self.hart.write_reg(5, trap.x5);
        self.hart.pc = trap.pc;
        self.step();
        let (mut stop, to_first) = self.run();
        let mut most = 0;
        for byte in trap.text.as_bytes() {
            if stop != Stop::Posted(0x0101 << 48 | u64::from(*byte)) {
                return Err("another byte is said");
            }
            self.bus.write_beat(TOHOST, 0);
            let (next, steps) = self.run();
            stop = next;
            most = most.max(steps);
        }
        if stop != Stop::Posted(2 * u64::from(trap.status) + 1) {
            return Err("the program ends with another status");
        }
        self.bus.write_beat(TOHOST, 0);
        if self.run().0 != Stop::Nowhere {
            return Err("the kernel goes on");
        }
        Ok((to_first, most))
    }
}

fn put_byte(bus: &mut Bus, at: u64, byte: u8) {
    if is_ram(at, 1) {
        bus.store(at, 1, u64::from(byte));
    }
}
