// The main vars of a program, made in a buffer: they take no memory.
ghost use Rattle.std.specs.Prelude.{◌≡◌, ◌≤◌, ◌+◌, ◌*◌, ◌++◌, length};
ghost use Rattle.elf_loader.specs.MainVars.{dword, main_vars_text, pointers, texts_with_nuls};
ghost use Rattle.fe_base.specs.WordLists.{main_vars_length, strings_length};

use crate::buffer::Buffer;
use fe_base::Words;

fn add_dword(buffer: &mut Buffer, value: u64)
    requires { length buffer.old + 8 ≤ 1048576 }
    ensures { buffer.new ≡ buffer.old ++ dword value }
{
    buffer.add(&value.to_le_bytes());
}

// A pointer to each argument, the first of which stands at the address; addresses go on modulo 2^64.
fn add_pointers(buffer: &mut Buffer, args: &Words, first: u64)
    requires { length buffer.old + 8 * length args.now ≤ 1048576 }
    ensures { buffer.new ≡ buffer.old ++ pointers first args.now }
{
    let mut at = first;
    for i in 0..args.len() {
        add_dword(buffer, at);
        at = at.wrapping_add(args.word(i).len() as u64 + 1);
    }
}

// Each argument with a NUL behind it.
fn add_texts(buffer: &mut Buffer, args: &Words)
    requires { length buffer.old + strings_length args.now ≤ 1048576 }
    ensures { buffer.new ≡ buffer.old ++ texts_with_nuls args.now }
{
    for i in 0..args.len() {
        buffer.add(args.word(i).as_bytes());
        buffer.add(&[0]);
    }
}

/// Puts the arguments' main vars into the buffer, as they stand in memory at the base.
pub(crate) fn hold_main_vars(buffer: &mut Buffer, args: &Words, base: u64)
    requires { main_vars_length args.now ≤ 65536 }
    ensures { buffer.new ≡ main_vars_text args.now base }
{
    let count = args.len() as u64;
    buffer.hold(&count.to_le_bytes());
    add_pointers(buffer, args, base.wrapping_add(8 * (count + 3)));
    add_dword(buffer, 0);
    add_dword(buffer, 0);
    add_texts(buffer, args);
}
