// What a guest's path names.
ghost use Rattle.std.specs.Prelude.{◌≡◌, ◌≤◌, IfOk, length, take};
ghost use Rattle.std.specs.List.{position};
ghost use Rattle.folder_tree.specs.Paths.{is_absolute as begins_with_slash, path_text};
ghost use Rattle.std.specs.Str.{is_utf8 as is_utf8_text};
ghost use Rattle.syscall_proxy.specs.PathRules.{guest_path as path_by_rules, name_of as name_in};

use fe_base::ErrNo;
use fe_base::limits::PATH_TEXT_LIMIT;
use folder_tree::{Path, read_path};
use std::str;

// The `dirfd` that says that a path begins where the program stands (AT_FDCWD, -100).
const CURRENT_DIRECTORY: u32 = 0xffff_ff9c;

// The bytes before the first NUL, or all.
fn name_of(bytes: &[u8]) -> &[u8]
    ensures { result.now ≡ name_in bytes.now }
{
    match bytes.iter().position(|byte| *byte == 0) {
        Some(end) => &bytes[..end],
        None => bytes,
    }
}

fn is_utf8(name: &[u8]) -> bool
    ensures { result ≡ is_utf8_text name.now }
{
    str::from_utf8(name).is_ok()
}

fn is_absolute(name: &[u8]) -> bool
    ensures { result ≡ begins_with_slash name.now }
{
    matches!(name, [b'/', ..])
}

/// What a path of a program names below its root: the bytes are those of the program's memory, with its NUL or without.
///
/// The error is that of the first broken rule: EINVAL for a name that is no UTF-8, ENOENT for an empty one, EBADF for one
/// that begins at a directory that is open, ENAMETOOLONG for a long name or part, EACCES for a part `..`.
pub fn guest_path(dirfd: u32, bytes: &[u8]) -> Result<Path, ErrNo>
    ensures path { result ≡ path_by_rules dirfd bytes.now }
    ensures bound { IfOk result (λ path. length (path_text path) ≤ PATH_TEXT_LIMIT) }
{
    let name = name_of(bytes);
    if !is_utf8(name) {
        return Err(ErrNo::EINVAL);
    }
    if name.is_empty() {
        return Err(ErrNo::ENOENT);
    }
    if !is_absolute(name) && dirfd != CURRENT_DIRECTORY {
        return Err(ErrNo::EBADF);
    }
    read_path(name)
}
