//! Paths that are resolved against a root directory.

ghost use Rattle.std.specs.Prelude.{◌≡◌, IfOk};
ghost use Rattle.std.specs.Option.{option_copied};
ghost use Rattle.std.specs.Path.{path_buf_bytes};
ghost use Rattle.rv_files.specs.UnreadablePaths.{resolved_path};

use std::alloc::{AllocError, Global};
use std::path::{Path, PathBuf};

/// Returns the path joined to the root if the path is relative and there is a root; otherwise the path itself.
pub fn resolved_path(alloc: Global, root: Option<&str>, path: &str) -> Result<PathBuf, AllocError>
    ensures { IfOk result (λ resolved. path_buf_bytes resolved ≡ resolved_path (option_copied root.entry) path.now) }
{
    match root {
        Some(root) => Path::new(root).join(alloc, path),
        None => PathBuf::from_str(alloc, path),
    }
}
