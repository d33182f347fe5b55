//! Names of files.
ghost use Rattle.std.specs.Prelude.{◌≡◌, ◌↔◌, ◌++◌, IfOk, IsTrue, codes, string_bytes};
ghost use Rattle.abt_files.specs.Names as spec;

use std::alloc::{AllocError, Global};

/// Whether a name is `-`: the standard input where a command reads, the standard output where it writes and prints nothing else there.
pub fn is_standard(name: &str) -> bool
    ensures { IsTrue result ↔ (name.now ≡ spec.standard) }
{
    name == "-"
}

// A name, cut behind its last slash: that of the folder, which may be empty, and that of the file there.
pub(crate) fn cut_name(name: &str) -> (&str, &str)
    ensures { name.now ≡ result.0.now ++ result.1.now }
{
    match name.rfind('/') {
        Some(place) => (&name[..place + 1], &name[place + 1..]),
        None => ("", name),
    }
}

// The name of a file beside others of a folder.
pub(crate) fn name_beside(alloc: Global, folder: &str, number: u32) -> Result<String, AllocError>
    ensures { IfOk result (λ name. string_bytes name ≡ spec.beside folder.now number) }
{
    format!(in alloc; "{folder}.abt.{number}.part")
}
