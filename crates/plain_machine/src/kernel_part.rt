// The kernel part of a call: what comes of it before the host is asked.
ghost use Rattle.std.specs.Prelude.{◌≡◌, ◌<◌, ◌^◌, ℕ, List, slice_index};
ghost use Rattle.plain_machine.specs.KernelPart as spec;
ghost use Rattle.plain_machine.specs.KernelPart.{posts, request};
ghost use Rattle.plain_machine.specs.Machines.{part_in, part_or_scan, scanned_in};
ghost use Rattle.plain_machine.specs.Programs.{part_of};
ghost use Rattle.plain_machine.specs.Rows.{IsInside};
ghost use Rattle.syscall_proxy.specs.Kept.{Setting};

use crate::calls::Process;
use crate::cpu::Cpu;
use fe_base::ErrNo;
use fe_base::limits::{GREATEST_BREAK, GUEST_PATH_LIMIT, TRANSFER_LIMIT};
use fe_base::memory_map::{USER_END, USER_START};

/// What comes of a call before the host is asked.
#[derive(Clone, Copy)]
pub enum Part {
    /// The call gets this answer.
    Gives(u64),
    /// The break becomes this, which is the answer.
    Breaks(u64),
    /// This request goes to the host.
    Posts([u64; 8]),
}

/// What a scan of a path comes to.
#[derive(Clone, Copy)]
pub enum Scanned {
    /// The path's length, its NUL included.
    Ends(u64),
    /// A byte of it is outside the user area.
    Leaves,
    /// There is no NUL within the limit.
    IsLong,
}

// The bytes of a stat record.
const STAT_SIZE: u64 = 128;

// The call is refused.
fn refused(error: ErrNo) -> Part
    ensures { part_in result ≡ spec.refused error }
{
    Part::Gives(error.result())
}

// A request: the number of the call, and its arguments.
fn posted(number: u64, a: u64, b: u64, c: u64, d: u64, e: u64) -> Part
    ensures { part_in result ≡ posts (request number a b c d e) }
{
    Part::Posts([number, a, b, c, d, e, 0, 0])
}

// This part, where a buffer of so many bytes stands whole in the user area; else the call is refused.
fn in_area(buffer: u64, count: u64, part: Part) -> Part
    ensures { part_in result ≡ spec.in_area buffer count (part_in part) }
{
    if buffer < USER_START {
        return refused(ErrNo::EFAULT);
    }
    if USER_END < buffer {
        return refused(ErrNo::EFAULT);
    }
    if USER_END - buffer < count {
        return refused(ErrNo::EFAULT);
    }
    part
}

// A call that moves bytes of a buffer, with its count lowered to the most that one call moves.
fn buffer_part(number: u64, a: u64, buffer: u64, count: u64, place: u64) -> Part
    ensures { part_in result
        ≡ spec.lowered count (λ count. spec.in_area buffer count (posts (request number a buffer count place 0))) }
{
    let count = count.min(TRANSFER_LIMIT);
    in_area(buffer, count, posted(number, a, buffer, count, place, 0))
}

// The break that brk leaves.
fn moved_break(process: &Process, asked: u64) -> u64
    ensures { result ≡ spec.break_after asked process.now.program_break process.now.first_break }
{
    if asked < process.first_break {
        return process.program_break;
    }
    if GREATEST_BREAK < asked {
        return process.program_break;
    }
    asked
}

// The scan of a path.
fn scan(cpu: &Cpu, path: u64) -> Scanned
    ensures { scanned_in result ≡ spec.scan cpu.now.user path 0 spec.greatest_path }
{
    for from in 0..GUEST_PATH_LIMIT {
        match cpu.byte(path.wrapping_add(from)) {
            None => return Scanned::Leaves,
            Some(0) => return Scanned::Ends(from + 1),
            Some(_) => {}
        }
    }
    Scanned::IsLong
}

// A call with a path: its length follows its address; openat alone has an argument behind that.
fn path_part(cpu: &Cpu) -> Part
    ensures { part_in result ≡ spec.path_part cpu.now.registers cpu.now.user }
{
    let number = cpu.register(17);
    let last = if number == 56 { cpu.register(13) } else { 0 };
    match scan(cpu, cpu.register(11)) {
        Scanned::Ends(length) => posted(
            number,
            cpu.register(10),
            cpu.register(11),
            length,
            cpu.register(12),
            last,
        ),
        Scanned::Leaves => refused(ErrNo::EFAULT),
        Scanned::IsLong => refused(ErrNo::ENAMETOOLONG),
    }
}

// The table by number; None where there is a path to scan.
fn first_part(process: &Process) -> Option<Part>
    ensures part { part_or_scan result
        ≡ spec.first_part process.now.state.registers process.now.program_break process.now.first_break }
    ensures address { slice_index process.now.state.registers 11 < 2 ^ 64 }
{
    let cpu = &process.cpu;
    let number = cpu.register(17);
    let (a, b, c, d) = (
        cpu.register(10),
        cpu.register(11),
        cpu.register(12),
        cpu.register(13),
    );
    let part = match number {
        34 | 35 | 48 | 56 => return None,
        46 => posted(number, a, b, 0, 0, 0),
        57 | 93 | 94 => posted(number, a, 0, 0, 0, 0),
        62 => posted(number, a, b, c, 0, 0),
        63 | 64 => buffer_part(number, a, b, c, 0),
        67 | 68 => buffer_part(number, a, b, c, d),
        80 => in_area(b, STAT_SIZE, posted(number, a, b, 0, 0, 0)),
        214 => Part::Breaks(moved_break(process, a)),
        _ => refused(ErrNo::ENOSYS),
    };
    Some(part)
}

/// The kernel part of the call that the program stands at. What it posts names a range in the user area, if any.
#[tactic(auto, unfolding(crate::specs::KernelPart::kernel_part))]
pub fn kernel_part(process: &Process) -> Part
    ensures part { part_in result ≡ part_of process.now }
    ensures inside { (request : List ℕ) → part_in result ≡ posts request → (given : Setting) → IsInside given request }
{
    match first_part(process) {
        Some(part) => part,
        None => path_part(&process.cpu),
    }
}
