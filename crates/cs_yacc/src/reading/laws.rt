// Laws of reading.

ghost use Rattle.std.specs.Prelude.{◌≡◌, ◌≤◌, ◌⊎◌, ℕ, List, length};
ghost use Rattle.cs_yacc.specs.declared.reading.error.YaccError.{YaccError};
ghost use Rattle.cs_bytes.specs.Limits.{most_bytes};
ghost use Rattle.cs_yacc.specs.Reading.File.{File};
ghost use Rattle.cs_yacc.specs.Reading.Reading.{IsYaccFile, Refuses, IsAccepted, IsRefused};

use crate::items::read_or_stopped;

/// Accepted bytes mean one file.
pub fn one_file()
    ensures { (bytes : List ℕ) (f g : File)
        → IsYaccFile bytes f → IsYaccFile bytes g → f ≡ g }
{}

/// Refused bytes are refused with one error.
pub fn one_refusal()
    ensures { (bytes : List ℕ) (e f : YaccError)
        → Refuses e bytes → Refuses f bytes → e ≡ f }
{}

/// No bytes are both accepted and refused.
pub fn refused_is_not_accepted()
    ensures { (bytes : List ℕ) (f : File) (e : YaccError)
        → Refuses e bytes → IsYaccFile bytes f → ⊥ }
{}

/// Bytes are accepted or refused.
pub fn accepted_or_refused(bytes: &[u8])
    requires { length bytes.now ≤ most_bytes }
    ensures { IsAccepted bytes.now ⊎ IsRefused bytes.now }
{
    read_or_stopped(bytes);
}
