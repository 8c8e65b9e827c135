// The host of a program.
ghost use Rattle.std.specs.Prelude.{◌≡◌, ◌≤◌, false, IfOk, length};
ghost use Rattle.fe_base.specs.WordLists.{main_vars_length};
ghost use Rattle.folder_tree.specs.Paths.{path_text};
ghost use Rattle.host_text.specs.World.{first_numbers};

use crate::buffer::Buffer;
use crate::calls::Calls;
use crate::numbers::Numbers;
use crate::setting::Setting;
use fe_base::Words;
use folder_tree::Path;
use std::alloc::{AllocError, Global};
use std::marker::Model;

/// The host of a program: it carries out the requests that the program's kernel posts.
#[derive(Drop)]
pub struct Host {
    pub(crate) setting: Setting,
    pub(crate) calls: Calls,
}

impl Model for Host {
    ghost use Rattle.syscall_proxy.specs.Kept.{HostState};

    ghost Value = { HostState };

    ghost view = { λ h. record { given = h.setting; numbers = h.calls.numbers; acted = h.calls.acted } };
}

impl Host {
    /// The host of a program that has these arguments, and whose paths stand under a root. It takes memory for a copy of
    /// the arguments, and for the bytes of a call.
    pub fn new(alloc: Global, args: &Words, root: Path) -> Result<Host, AllocError>
        requires args { main_vars_length args.now ≤ 65536 }
        requires root { length (path_text root) ≤ 4095 }
        ensures args { IfOk result (λ host. host.given.args ≡ args.now) }
        ensures root { IfOk result (λ host. host.given.root ≡ root) }
        ensures numbers { IfOk result (λ host. host.numbers ≡ first_numbers) }
        ensures acted { IfOk result (λ host. host.acted ≡ false) }
    {
        let setting = Setting::new(alloc, args, root)?;
        let calls = Calls {
            numbers: Numbers::first(),
            buffer: Buffer::new(alloc)?,
            acted: false,
        };
        Ok(Host { setting, calls })
    }

    /// Whether the last call acted: its last call of the outside was answered, or its result was decided.
    pub fn acted(&self) -> bool
        ensures { result ≡ self.now.acted }
    {
        self.calls.acted
    }
}
