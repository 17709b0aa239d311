//! The names of included files.
ghost use Rattle.std.specs.Prelude.{◌≡◌, IfOk};
ghost use Rattle.idl_files.specs.Names.{base, included_name, is_absolute, settled};

use crate::segments::Segments;
use gate_base::{OutOfMemory, Text};
use std::alloc::Global;

/// The name of the file that this path means in an include of this file.
///
/// It is the file's directory joined with the path, or the path alone where that begins with a slash. Segments `.` are
/// dropped, and so is each segment that is neither empty nor `..` before a `..`, with that `..`.
#[tactic(auto, unfolding(crate::specs::Names::included_name))]
pub(crate) fn included_name(alloc: Global, file: &[u8], path: &[u8]) -> Result<Text, OutOfMemory>
    ensures { IfOk result (λ name. name ≡ included_name file.now path.now) }
{
    let mut kept = base(alloc, file, path)?;
    let last = kept.keep_ended(alloc, path)?;
    kept.keep(alloc, &path[last..])?;
    kept.spelled(alloc)
}

// The segments before those of the path.
fn base(alloc: Global, file: &[u8], path: &[u8]) -> Result<Segments, OutOfMemory>
    ensures { IfOk result (λ kept. kept ≡ settled (base file.now path.now)) }
{
    let mut kept = Segments::new(alloc);
    if is_absolute(path) {
        return Ok(kept);
    }
    kept.keep_ended(alloc, file)?;
    Ok(kept)
}

fn is_absolute(path: &[u8]) -> bool
    ensures { result ≡ is_absolute path.now }
{
    match path {
        [] => false,
        [first, ..] => *first == b'/',
    }
}
