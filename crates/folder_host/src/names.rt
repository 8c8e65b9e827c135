// Names as the system reads them, and what stands there.
ghost use Rattle.std.specs.Prelude.{◌≡◌, false};
ghost use Rattle.folder_tree.specs.Paths.{leads_out, path_text};
ghost use Rattle.folder_host.specs.Names as spec;

use folder_tree::{Path, PathKind};
use std::fs::{Metadata, metadata};
use std::io;
use std::io::ErrorKind;
use std::rt::Files;

// The path as the system reads it: the root is the working directory itself.
pub fn name_of(path: &Path) -> &str
    ensures name { result.now ≡ spec.name_of (path_text path.now) }
    ensures inside { leads_out result.now ≡ false }
{
    match path.as_str() {
        "" => ".",
        name => name,
    }
}

// The name of the directory that a name stands in.
fn parent_of(name: &str) -> &str
    requires { leads_out name.now ≡ false }
    ensures { leads_out result.now ≡ false }
{
    match name.rfind('/') {
        Some(end) => &name[..end],
        None => ".",
    }
}

fn kind_in(found: &Metadata) -> io::Result<PathKind> {
    if found.is_dir() {
        Ok(PathKind::Directory)
    } else if found.is_file() {
        Ok(PathKind::File)
    } else {
        Err(io::Error::from(ErrorKind::Unsupported))
    }
}

fn kind_at(rt: &impl Files, name: &str) -> io::Result<PathKind>
    requires { leads_out name.now ≡ false }
{
    kind_in(&metadata(rt, name)?)
}

// What a name is at which the system finds nothing.
fn missing_kind(rt: &impl Files, name: &str) -> io::Result<PathKind>
    requires { leads_out name.now ≡ false }
{
    match kind_at(rt, parent_of(name)) {
        Ok(_) => Ok(PathKind::Free),
        Err(error) if error.kind() == ErrorKind::NotFound => Ok(PathKind::NoParent),
        Err(error) => Err(error),
    }
}

pub fn kind_of(rt: &impl Files, name: &str) -> io::Result<PathKind>
    requires { leads_out name.now ≡ false }
{
    match kind_at(rt, name) {
        Err(error) if error.kind() == ErrorKind::NotFound => missing_kind(rt, name),
        Err(error) if error.kind() == ErrorKind::NotADirectory => Ok(PathKind::UnderFile),
        kind => kind,
    }
}

// Whether a regular file stands at a name.
pub fn is_file(rt: &impl Files, name: &str) -> bool
    requires { leads_out name.now ≡ false }
{
    matches!(kind_at(rt, name), Ok(PathKind::File))
}
