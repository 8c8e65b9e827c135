// What a host was made with.
ghost use Rattle.std.specs.Prelude.{◌≡◌, ◌≤◌, ◌++◌, IfOk, length, take};
ghost use Rattle.fe_base.specs.WordLists.{main_vars_length};
ghost use Rattle.folder_tree.specs.Paths.{path_text};
ghost use Rattle.syscall_proxy.specs.Kept.{Setting as Given};

use fe_base::Words;
use folder_tree::Path;
use std::alloc::{AllocError, Global};
use std::marker::Model;

/// The program's arguments, and the path in the folder under which the program's paths stand.
#[derive(Drop)]
pub(crate) struct Setting {
    args: Words,
    root: Path,
}

impl Model for Setting {
    ghost use Rattle.std.specs.Prelude.{◌≤◌, length};
    ghost use Rattle.fe_base.specs.WordLists.{main_vars_length};
    ghost use Rattle.folder_tree.specs.Paths.{path_text};
    ghost use Rattle.syscall_proxy.specs.Kept.{Setting as Given};

    ghost Value = { Given };

    ghost view = { λ s. record { args = s.args; root = s.root } };

    ghost invariant = { λ s. (main_vars_length s.args ≤ 65536) × (length (path_text s.root) ≤ 4095) };
}

// A copy of the texts.
fn copy_of(alloc: Global, texts: &Words) -> Result<Words, AllocError>
    ensures { IfOk result (λ copy. copy ≡ texts.now) }
{
    let mut copy = Words::new(alloc);
    for i in 0..texts.len() {
        copy.push(texts.word(i))?;
    }
    Ok(copy)
}

impl Setting {
    /// These arguments and this root. It takes memory for a copy of the arguments.
    pub fn new(alloc: Global, args: &Words, root: Path) -> Result<Setting, AllocError>
        requires args { main_vars_length args.now ≤ 65536 }
        requires root { length (path_text root) ≤ 4095 }
        ensures args { IfOk result (λ s. s.args ≡ args.now) }
        ensures root { IfOk result (λ s. s.root ≡ root) }
    {
        let args = copy_of(alloc, args)?;
        Ok(Setting { args, root })
    }

    /// The arguments.
    pub fn args(&self) -> &Words
        ensures args { result.now ≡ self.now.args }
        ensures bound { main_vars_length self.now.args ≤ 65536 }
    {
        &self.args
    }

    /// A path of the program, where it stands in the folder.
    pub fn place(&self, path: &Path) -> Path
        requires { length (path_text path.now) ≤ 4095 }
        ensures { result ≡ self.now.root ++ path.now }
    {
        path.below(&self.root)
    }
}
