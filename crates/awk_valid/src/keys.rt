//! The keys of buffers.
ghost use Rattle.std.specs.Prelude.{◌≡◌, [], ◌++◌, IfOk, codes, string_bytes, unwrap_or};
ghost use Rattle.awk_valid.specs.Container.{buffer_key};

use awk_types::{Name, NoMemory};
use std::alloc::Global;

/// The text of a form key, and no text where there is none.
fn stem(key: &Option<Name>) -> &str
    ensures { result.now ≡ unwrap_or key.now [] }
{
    match key {
        Some(name) => name.as_str(),
        None => "",
    }
}

fn joined(alloc: Global, stem: &str, attribute: &str) -> Result<String, NoMemory>
    ensures { IfOk result (λ text. string_bytes text ≡ stem.now ++ codes "-" ++ attribute.now) }
{
    format!(in alloc; "{stem}-{attribute}")
}

/// The key of a node's buffer: the form key, a dash, and what the buffer is for.
pub(crate) fn buffer_key(
    alloc: Global,
    key: &Option<Name>,
    attribute: &str,
) -> Result<String, NoMemory>
    ensures { IfOk result (λ text. string_bytes text ≡ buffer_key key.now attribute.now) }
{
    joined(alloc, stem(key), attribute)
}
