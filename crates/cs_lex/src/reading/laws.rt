// Laws of reading.

ghost use Rattle.std.specs.Prelude.{◌≡◌, ◌≤◌, ℕ, List, length};
ghost use Rattle.cs_bytes.specs.Limits.{most_bytes};
ghost use Rattle.cs_yacc.specs.Reading.File.{File};
ghost use Rattle.cs_lex.specs.Reading.Laws as spec;

use crate::layout::definitions_end;
use crate::reading::settled::walk_kinds;
use crate::reading::{MOST_BYTES, MOST_POSITIONS, MOST_RULES};

/// Accepted bytes mean one file.
pub fn one_file()
    ensures { (bytes : List ℕ) (yacc : File) → spec.MeanOneFile bytes yacc }
{}

/// Refused bytes are refused with one error.
pub fn one_refusal()
    ensures { (bytes : List ℕ) → spec.AreRefusedOnce bytes }
{}

/// No bytes are both accepted and refused.
pub fn refused_is_not_accepted()
    ensures { (bytes : List ℕ) (yacc : File) → spec.AreNotAcceptedWhereRefused bytes yacc }
{}

/// Bytes are accepted beside a yacc file, or refused. Which of the two is decided by walks over the bytes without memory.
pub fn accepted_or_refused(bytes: &[u8])
    requires { length bytes.now ≤ most_bytes }
    ensures { (yacc : File) → spec.IsAcceptedOrRefused bytes.now yacc }
{
    if let Some(from) = definitions_end(bytes) {
        walk_kinds(bytes, from);
    }
}

/// The limits of the definitions are the code's.
pub fn limits()
    ensures bytes { MOST_BYTES ≡ most_bytes }
    ensures rules { MOST_RULES ≡ 2048 }
    ensures positions { MOST_POSITIONS ≡ 16384 }
{}
