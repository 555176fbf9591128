// The names of definitions.

ghost use Rattle.std.specs.Prelude.{◌≡◌, ◌≤◌, IfOk, length};
ghost use Rattle.cs_lex.specs.Layout.Layout as spec;
ghost use Rattle.cs_lex.specs.Layout.Names.{lacks, AddsName};

use crate::layout::parts::Part;
use indexmap::IndexSet;
use std::alloc::AllocError;

/// The bytes of a part.
pub(crate) fn bytes_of(bytes: &[u8], part: Part) -> &[u8]
    requires ordered { part.from ≤ part.to }
    requires within { part.to ≤ length bytes.now }
    ensures { result.now ≡ spec.bytes_of bytes.now part }
{
    &bytes[part.from..part.to]
}

/// Puts the name last, where the names lack it; true where they do.
pub(crate) fn add_name<'a>(
    names: &mut IndexSet<&'a [u8]>,
    name: &'a [u8],
) -> Result<bool, AllocError>
    ensures new { IfOk result (λ is_new. is_new ≡ lacks names.old.keys name.now) }
    ensures added { IfOk result (AddsName names.old.keys names.new.keys name.now) }
{
    Ok(names.insert(name)?)
}
