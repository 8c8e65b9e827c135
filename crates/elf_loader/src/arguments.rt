// The bytes that a program's main finds at the top of its stack.
ghost use Rattle.std.specs.Prelude.{◌≡◌, ◌≤◌, ◌<◌, ◌+◌, ◌^◌, ◌++◌, ℕ, [], ◌∷◌, length, IfOk, OnOk, ◌*◌};
ghost use Rattle.fe_base.specs.WordLists.{main_vars_length, strings_length};
ghost use Rattle.elf_loader.specs.MainVars.{main_vars_text, dword, pointers, texts_with_nuls};

use fe_base::limits::MAIN_VARS_LIMIT;
use fe_base::{Bytes, Words};
use std::alloc::{AllocError, Global};

fn push_all(bytes: &mut Bytes, more: &[u8]) -> Result<(), AllocError>
    ensures { OnOk result (bytes.new ≡ bytes.old ++ more.now) }
{
    for byte in more {
        bytes.push(*byte)?;
    }
    Ok(())
}

fn push_dword(bytes: &mut Bytes, value: u64) -> Result<(), AllocError>
    ensures { OnOk result (bytes.new ≡ bytes.old ++ dword value) }
{
    push_all(bytes, &value.to_le_bytes())
}

// A pointer to each argument, the first of which stands at the address.
fn push_pointers(bytes: &mut Bytes, args: &Words, first: u64) -> Result<(), AllocError>
    requires { first + strings_length args.now < 2 ^ 64 }
    ensures { OnOk result (bytes.new ≡ bytes.old ++ pointers first args.now) }
{
    let mut at = first;
    for i in 0..args.len() {
        push_dword(bytes, at)?;
        at += args.word(i).len() as u64 + 1;
    }
    Ok(())
}

// Each argument with a NUL behind it.
fn push_texts(bytes: &mut Bytes, args: &Words) -> Result<(), AllocError>
    ensures { OnOk result (bytes.new ≡ bytes.old ++ texts_with_nuls args.now) }
{
    for i in 0..args.len() {
        push_all(bytes, args.word(i).as_bytes())?;
        bytes.push(0)?;
    }
    Ok(())
}

/// How many bytes `main_vars` gives for the arguments.
pub fn main_vars_len(args: &Words) -> u64
    ensures value { result ≡ main_vars_length args.now }
    ensures text { (base : ℕ) → result ≡ length (main_vars_text args.now base) }
{
    let mut length = 8 * (args.len() as u64 + 3);
    for i in 0..args.len() {
        length += args.word(i).len() as u64 + 1;
    }
    length
}

/// The count of the arguments as 8 bytes, a pointer of 8 bytes to each, 16 bytes of zero, and the arguments, each with
/// a NUL. The pointers are right where the bytes stand at the base.
pub fn main_vars(alloc: Global, args: &Words, base: u64) -> Result<Bytes, AllocError>
    requires short { main_vars_length args.now ≤ MAIN_VARS_LIMIT }
    requires fits { base + main_vars_length args.now < 2 ^ 64 }
    ensures text { IfOk result (λ bytes. bytes ≡ main_vars_text args.now base) }
    ensures len { IfOk result (λ bytes. length bytes ≡ main_vars_length args.now) }
{
    let mut bytes = Bytes::new(alloc);
    let count = args.len() as u64;
    push_dword(&mut bytes, count)?;
    push_pointers(&mut bytes, args, base + 8 * (count + 3))?;
    push_dword(&mut bytes, 0)?;
    push_dword(&mut bytes, 0)?;
    push_texts(&mut bytes, args)?;
    Ok(bytes)
}

#[cfg(test)]
mod tests {
    use super::*;
    use std::test::Fail;

    #[test]
    fn makes_main_vars(rt: HostRuntime) -> Result<(), Fail> {
        let mut args = Words::new(rt.alloc());
        args.push("p")?;
        args.push("xyz")?;
        let bytes = main_vars(rt.alloc(), &args, 0x1000)?;
        let want = [
            2, 0, 0, 0, 0, 0, 0, 0, 0x28, 0x10, 0, 0, 0, 0, 0, 0, 0x2a, 0x10, 0, 0, 0, 0, 0, 0, //
            0, 0, 0, 0, 0, 0, 0, 0, 0, 0, 0, 0, 0, 0, 0, 0, b'p', 0, b'x', b'y', b'z', 0,
        ];
        assert_eq!(rt; bytes.as_slice(), want.as_slice());
        assert_eq!(rt; main_vars_len(&args), 46);
        Ok(())
    }
}
