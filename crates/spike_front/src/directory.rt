// The directory that a word names.
ghost use Rattle.std.specs.Prelude.{◌≡◌, ◌≤◌, IfOk, IfSome, IsErrOf, Some, length};
ghost use Rattle.fe_base.specs.Limits.{path_text_limit};
ghost use Rattle.folder_tree.specs.Paths.{path_text};
ghost use Rattle.folder_tree.specs.Tree.{Tree};
ghost use Rattle.spike_front.specs.Causes.{RoseFor};
ghost use Rattle.spike_front.specs.FoundFiles.{directory_named};

use crate::file::Stop;
use folder_tree::{Folder, Path, PathKind, read_path};

/// The path of the directory that a word names, if it names one.
pub fn find_directory<F: Folder>(folder: &mut F, word: &str) -> Result<Option<Path>, Stop>
    ensures bound { IfOk result (λ found. IfSome found (λ path. length (path_text path) ≤ path_text_limit)) }
    ensures told { IfOk result (λ found. (t : Tree) → F.tree folder.old ≡ Some t → found ≡ directory_named word.now t) }
    ensures tree { (t : Tree) → F.tree folder.old ≡ Some t → F.tree folder.new ≡ Some t }
    ensures cause { RoseFor (IsErrOf result Stop.FileFault) (F.faults folder.old) (F.faults folder.new) }
    ensures short { F.short folder.old ≤ F.short folder.new }
    ensures steady { (t : Tree) → F.tree folder.old ≡ Some t → F.steady folder.old
        → (IsErrOf result Stop.FileFault → ⊥) × F.steady folder.new }
{
    let Ok(path) = read_path(word.as_bytes()) else {
        return Ok(None);
    };
    if folder.kind(&path)? != PathKind::Directory {
        return Ok(None);
    }
    Ok(Some(path))
}
