// What a yacc file says.

ghost use Rattle.std.specs.Prelude.{◌≡◌, IfSome, IfNone};
ghost use Rattle.cs_yacc.specs.Reading.File.{IsFile, file_from, IsNamed, NoneNamed};

use crate::reading::name::{Name, TokenName};
use crate::reading::token_names::TokenNames;
use cs_grammar::Grammar;
use std::marker::Model;

/// The grammar of a yacc file, and the names of its symbols. Token `t` has the name at `t - 1`, and so has nonterminal
/// `n` in its list. Each symbol has a name, and all names differ.
#[derive(Debug, Drop)]
pub struct YaccFile {
    grammar: Grammar,
    token_names: TokenNames,
    nonterminal_names: Vec<Name>,
}

impl Model for YaccFile {
    ghost use Rattle.cs_yacc.specs.Reading.File.{File, IsFile, file_from};

    ghost Value = { File };

    ghost view = { λ f. file_from f.grammar f.token_names f.nonterminal_names.items };

    ghost invariant = { λ f. IsFile (file_from f.grammar f.token_names f.nonterminal_names.items) };
}

impl YaccFile {
    /// The file of these, which fit each other.
    pub(crate) fn new(
        grammar: Grammar,
        token_names: TokenNames,
        nonterminal_names: Vec<Name>,
    ) -> YaccFile
        requires { IsFile (file_from grammar token_names nonterminal_names.items) }
        ensures { result ≡ file_from grammar token_names nonterminal_names.items }
    {
        YaccFile {
            grammar,
            token_names,
            nonterminal_names,
        }
    }

    /// The grammar.
    pub fn grammar(&self) -> &Grammar
        ensures grammar { result.now ≡ self.now.grammar }
        ensures named { IsFile self.now }
    {
        &self.grammar
    }

    /// The names of the tokens, in the order of their numbers.
    pub fn token_names(&self) -> &[TokenName]
        ensures names { result.now ≡ self.now.token_names }
        ensures named { IsFile self.now }
    {
        self.token_names.as_slice()
    }

    /// The names of the nonterminals, in the order of their numbers.
    pub fn nonterminal_names(&self) -> &[Name]
        ensures names { result.now ≡ self.now.nonterminal_names }
        ensures named { IsFile self.now }
    {
        &self.nonterminal_names
    }

    /// The token in use of the name; `None` where no token in use has it.
    pub fn token(&self, name: &[u8]) -> Option<u16>
        ensures found { IfSome result (λ t.
            IsNamed self.now.token_names t (TokenName.Word name.now)) }
        ensures none { IfNone result (NoneNamed self.now.token_names (TokenName.Word name.now)) }
    {
        self.token_names.word(name)
    }

    /// The token in use of the literal; `None` where no token in use has it.
    pub fn literal(&self, byte: u8) -> Option<u16>
        ensures found { IfSome result (λ t. IsNamed self.now.token_names t (TokenName.Byte byte)) }
        ensures none { IfNone result (NoneNamed self.now.token_names (TokenName.Byte byte)) }
    {
        self.token_names.literal(byte)
    }
}
