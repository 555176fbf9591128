// What a lex file says.

ghost use Rattle.std.specs.Prelude.{◌≡◌};
ghost use Rattle.cs_lex.specs.Reading.File.{IsFile, file_of};
ghost use Rattle.cs_pattern_parts.specs.Tree.Pattern.{regexes};

use cs_pattern_parts::{Kind, Pattern};
use std::marker::Model;

/// What a lex file says beside a yacc file: rule `r` has the pattern and the kind at `r - 1`, and the literal of byte `b` has its
/// token at `b`, or 0 where it isn't in use.
///
/// There are as many kinds as patterns and 256 literals, and an automaton can be made of the patterns.
#[derive(Debug, Drop)]
pub struct LexFile {
    patterns: Vec<Pattern>,
    kinds: Vec<Kind>,
    literals: Vec<u16>,
}

impl Model for LexFile {
    ghost use Rattle.cs_lex.specs.Reading.File.{File, IsFile, file_of};
    ghost use Rattle.std.specs.Coded.{codes};
    ghost use Rattle.cs_lex.specs.Reading.RegexCode.{regex_code};

    ghost Value = { File };

    ghost coded = { Prim.hlevel (codes, regex_code) };

    ghost view = { λ f. file_of f.patterns.items f.kinds.items f.literals.items };

    ghost invariant = { λ f. IsFile (file_of f.patterns.items f.kinds.items f.literals.items) };
}

impl LexFile {
    /// The file of these, which fit each other.
    pub(crate) fn new(patterns: Vec<Pattern>, kinds: Vec<Kind>, literals: Vec<u16>) -> LexFile
        requires { IsFile (file_of patterns.items kinds.items literals.items) }
        ensures { result ≡ file_of patterns.items kinds.items literals.items }
    {
        LexFile {
            patterns,
            kinds,
            literals,
        }
    }

    /// The patterns of the rules, in order.
    pub fn patterns(&self) -> &[Pattern]
        ensures patterns { regexes result.now ≡ self.now.patterns }
        ensures fits { IsFile self.now }
    {
        &self.patterns
    }

    /// The kinds of the rules, in order.
    pub fn kinds(&self) -> &[Kind]
        ensures kinds { result.now ≡ self.now.kinds }
        ensures fits { IsFile self.now }
    {
        &self.kinds
    }

    /// The token in use of the literal of each byte, or 0.
    pub fn literals(&self) -> &[u16]
        ensures literals { result.now ≡ self.now.literals }
        ensures fits { IsFile self.now }
    {
        &self.literals
    }
}
