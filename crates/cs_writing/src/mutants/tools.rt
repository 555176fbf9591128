// What the negatives of all bases of a file are made by.

ghost use Rattle.std.specs.Prelude.{◌↔◌, IfOk, IfSome, IsTrue, is_some, length};
ghost use Rattle.cs_manifest.specs.Output.Names.{IsNamedToken};
ghost use Rattle.cs_texts.specs.Splice.Apart.{IsApart};
ghost use Rattle.cs_writing.specs.Mutants.Makers.{AreToolsOf, CanRender};
ghost use Rattle.cs_writing.specs.Mutants.Rows.{CanTell, IsTold};

use cs_manifest::{Piece, TokenPieces};
use cs_texts::{Apart, RenderWork};
use cs_yacc::YaccFile;
use std::alloc::{AllocError, Global};
use std::marker::Model;

/// What the negatives of a file's bases are made by: what lists of tokens are rendered with, the tokens as the lines of
/// negatives have them, and which of them stand apart in texts.
#[derive(Drop)]
pub struct Tools<'a> {
    pub(crate) yacc: &'a YaccFile,
    pub(crate) work: &'a RenderWork<'a>,
    pieces: TokenPieces<'a>,
    apart: Apart,
}

impl<'a> Model for Tools<'a> {
    ghost use Rattle.std.specs.Coded.{codes};
    ghost use Rattle.cs_pattern_parts.specs.contracts.tree.pattern.Pattern as pattern;
    ghost use Rattle.cs_writing.specs.Mutants.Makers.{AreSound, PlainTools};

    ghost Value = { PlainTools };

    ghost coded = { Prim.hlevel (codes, pattern.the_row.coded) };

    ghost view = { λ t. record { file = t.yacc.now; work = t.work.now; apart = t.apart } };

    ghost invariant = { λ t. AreSound t.yacc.now t.work.now t.pieces t.apart };
}

/// A token whose lexeme stands apart in texts, as the lines of negatives have it: its name behind a space, and its lexeme as it
/// stands between quotes.
#[derive(Clone, Copy)]
pub(crate) struct ToldToken<'t> {
    pub name: &'t Piece,
    pub lexeme: &'t Piece,
}

impl<'a> Tools<'a> {
    /// Those of a file. It spells its tokens.
    pub fn new(
        alloc: Global,
        yacc: &'a YaccFile,
        work: &'a RenderWork<'a>,
    ) -> Result<Tools<'a>, AllocError>
        requires { CanRender work.now (length yacc.now.token_names) }
        ensures { IfOk result (AreToolsOf yacc.now work.now) }
    {
        let pieces = TokenPieces::new(alloc, yacc, work.lexemes)?;
        let tokens = yacc.token_names().len() as u16;
        let apart = Apart::new(alloc, work, tokens)?;
        Ok(Tools {
            yacc,
            work,
            pieces,
            apart,
        })
    }

    // Whether the token stands apart in texts.
    pub(crate) fn is_apart(&self, token: u16) -> bool
        ensures { IsTrue result ↔ IsApart self.now.apart token }
    {
        self.apart.has(token)
    }

    // A token as lines have it. None where it doesn't stand apart.
    #[inline(always)]
    pub(crate) fn told(&self, token: u16) -> Option<ToldToken<'_>>
        requires { IsNamedToken self.now.file token }
        ensures told { IfSome result (IsTold self.now token) }
        ensures there { CanTell self.now token → IsTrue (is_some result) }
    {
        if !self.apart.has(token) {
            return None;
        }
        Some(ToldToken {
            name: self.pieces.name(token),
            lexeme: self.pieces.lexeme(token)?,
        })
    }
}
