// The calls of the system that take a name, none of which is handed one that leads out of the working directory.
ghost use Rattle.std.specs.Prelude.{◌≡◌, false};
ghost use Rattle.folder_tree.specs.Paths.{leads_out};

use std::fs::{OpenOptions, create_dir, remove_dir, remove_file};
use std::io;
use std::io::ErrorKind;
use std::rt::Files;

// Opens a file to be read and written, or read alone where it may not be written.
pub fn open_existing<R: Files>(rt: &R, name: &str) -> io::Result<R::File>
    requires { leads_out name.now ≡ false }
{
    match OpenOptions::new().read(true).write(true).open(rt, name) {
        Ok(file) => Ok(file),
        Err(_) => OpenOptions::new().read(true).open(rt, name),
    }
}

// Opens a file that isn't there yet.
pub fn open_new<R: Files>(rt: &R, name: &str) -> io::Result<R::File>
    requires { leads_out name.now ≡ false }
{
    OpenOptions::new()
        .read(true)
        .write(true)
        .create_new(true)
        .open(rt, name)
}

// Removes the name of a file.
pub fn remove_file_at(rt: &impl Files, name: &str) -> io::Result<()>
    requires { leads_out name.now ≡ false }
{
    remove_file(rt, name)
}

// Makes a directory.
pub fn create_dir_at(rt: &impl Files, name: &str) -> io::Result<()>
    requires { leads_out name.now ≡ false }
{
    create_dir(rt, name)
}

// Removes a directory; false where something stands in it.
pub fn remove_empty(rt: &impl Files, name: &str) -> io::Result<bool>
    requires { leads_out name.now ≡ false }
{
    match remove_dir(rt, name) {
        Ok(()) => Ok(true),
        Err(error) if error.kind() == ErrorKind::DirectoryNotEmpty => Ok(false),
        Err(error) => Err(error),
    }
}
