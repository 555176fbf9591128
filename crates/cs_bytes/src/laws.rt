//! Laws of the definitions.

ghost use Rattle.std.specs.Prelude.{◌≡◌, ◌↔◌, ℕ, Bool, List, [], ◌∷◌, codes};
ghost use Rattle.std.specs.List.{prefix_len};
ghost use Rattle.cs_bytes.specs.Limits.{most_bytes};
ghost use Rattle.cs_bytes.specs.Names as names;
ghost use Rattle.cs_bytes.specs.Places.{IsRun};

use crate::MOST_BYTES;

/// A text has one longest run of bytes that pass, and `prefix_len` is its size.
pub fn one_run()
    ensures { (p : ℕ → Bool) (text : List ℕ) (n : ℕ)
        → IsRun p text n ↔ (n ≡ prefix_len p text) }
{}

/// The names are those of the ASCII codes.
pub fn byte_names()
    ensures controls { codes "\t\n\r"
        ≡ names.tab ∷ names.newline ∷ names.carriage_return ∷ [] }
    ensures bells { codes "\u{7}\u{8}" ≡ names.alert ∷ names.backspace ∷ [] }
    ensures feeds { codes "\u{b}\u{c}" ≡ names.vertical_tab ∷ names.form_feed ∷ [] }
    ensures quotes { codes "\"'\\"
        ≡ names.double_quote ∷ names.quote ∷ names.backslash ∷ [] }
    ensures braces { codes "{}" ≡ names.opening_brace ∷ names.closing_brace ∷ [] }
    ensures brackets { codes "[]" ≡ names.opening_bracket ∷ names.closing_bracket ∷ [] }
    ensures parentheses { codes "()"
        ≡ names.opening_parenthesis ∷ names.closing_parenthesis ∷ [] }
    ensures slashes { codes "/*%" ≡ names.slash ∷ names.star ∷ names.percent ∷ [] }
    ensures stops { codes ",.:"
        ≡ names.comma_sign ∷ names.full_stop ∷ names.colon_sign ∷ [] }
    ensures lines { codes "-_|" ≡ names.dash ∷ names.underscore ∷ names.vertical_bar ∷ [] }
    ensures signs { codes "<=>"
        ≡ names.less_sign ∷ names.equals_sign ∷ names.greater_sign ∷ [] }
    ensures marks { codes "?^+" ≡ names.question_mark ∷ names.caret ∷ names.plus_sign ∷ [] }
    ensures escapes { codes "abf" ≡ names.letter_a ∷ names.letter_b ∷ names.letter_f ∷ [] }
    ensures more_escapes { codes "nrt" ≡ names.letter_n ∷ names.letter_r ∷ names.letter_t ∷ [] }
    ensures last_escapes { codes "vx" ≡ names.letter_v ∷ names.letter_x ∷ [] }
    ensures condition_letters { codes "sSX"
        ≡ names.letter_s ∷ names.capital_s ∷ names.capital_x ∷ [] }
    ensures others { codes " $;" ≡ names.space ∷ names.dollar ∷ names.semicolon_sign ∷ [] }
{}

/// The limit of the definitions is the code's.
pub fn byte_limit()
    ensures { MOST_BYTES ≡ most_bytes }
{}
