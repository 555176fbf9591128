// The negatives of a base, made one after another, and written.

ghost use Rattle.std.specs.Prelude.{◌≡◌, IfOk, IfSome, IsSome, None, OnErr, OnOk, Some, length};
ghost use Rattle.cs_manifest.specs.Manifest.Named.{IsNamedNegative};
ghost use Rattle.cs_mutate.specs.Edit.{IsPlaced};
ghost use Rattle.cs_writing.specs.Mutants.Makers.{TakesEdited};
ghost use Rattle.cs_writing.specs.Mutants.Mutants.{WritesMade, starts};
ghost use Rattle.cs_writing.specs.Mutants.Rows.{AreRows, FillsRow, IsEntryOf, IsFillingOf, IsRenderedAs};

use crate::mutants::maker::Maker;
use crate::mutants::opened::{Opened, open_negative};
use crate::mutants::rows::Rows;
use crate::mutants::tools::ToldToken;
use cs_io::{Sink, SinkError};
use cs_manifest::{Entry, FilledNegative, Manifest, NumberedNegative, Numeral};
use cs_mutate::{Negative, apply_into};
use cs_texts::Spliced;
use std::alloc::{AllocError, Global};
use std::marker::Model;

/// A negative of a base, in memory that the next is made in.
#[derive(Drop)]
pub struct MadeNegative<'m> {
    alloc: Global,
    maker: &'m Maker<'m>,
    rows: Rows,
    // What is made: one that fills a row, or what was rendered. Never both, and neither where nothing is made.
    filling: Option<Filling<'m>>,
    rendering: Option<Rendering<'m>>,
    tokens: Vec<u16>,
    middle: Vec<u8>,
}

// A negative without its token, and the token that fills the lines of its row.
#[derive(Clone, Copy)]
struct Filling<'m> {
    opened: Opened,
    token: ToldToken<'m>,
}

// A negative, and what came of the rendering of its edited list, but for what is kept beside it.
#[derive(Drop)]
struct Rendering<'m> {
    negative: Negative,
    spliced: Spliced<'m>,
}

impl<'m> Model for MadeNegative<'m> {
    ghost use Rattle.std.specs.Coded.{codes};
    ghost use Rattle.cs_pattern_parts.specs.contracts.tree.pattern.Pattern as pattern;
    ghost use Rattle.std.specs.Prelude.{IfSome};
    ghost use Rattle.cs_writing.specs.Mutants.Mutants.{Mutant};
    ghost use Rattle.cs_writing.specs.Mutants.Rows.{AreRows, FillsRow, IsRenderedAs, negative_in};

    ghost Value = { Mutant };

    ghost coded = { Prim.hlevel (codes, pattern.the_row.coded) };

    ghost view = { λ m. record {
      making = m.maker.now;
      negative = negative_in m.filling m.rendering;
    } };

    ghost invariant = { λ m. AreRows m.maker.now m.rows
        × IfSome m.filling (FillsRow m.maker.now m.rows)
        × IfSome m.rendering (IsRenderedAs m.maker.now m.tokens.items m.middle.items) };
}

impl<'m> MadeNegative<'m> {
    /// Memory for the negatives of a base.
    pub fn new(alloc: Global, maker: &'m Maker<'m>) -> MadeNegative<'m>
        ensures { result ≡ starts maker.now }
    {
        MadeNegative {
            alloc,
            maker,
            rows: Rows::new(),
            filling: None,
            rendering: None,
            tokens: Vec::new(alloc),
            middle: Vec::new(alloc),
        }
    }

    /// Makes a negative of the base in place of what was made. Want of memory alone is an error, and then nothing is made.
    #[inline(always)]
    pub fn make(&mut self, negative: &Negative) -> Result<(), AllocError>
        requires placed { IsPlaced (length self.old.making.base) negative.now.edit }
        requires taken { TakesEdited self.old.making negative.now.edit }
        requires named { IsNamedNegative self.old.making.tools.file negative.now }
        ensures making { self.new.making ≡ self.old.making }
        ensures made { OnOk result (self.new.negative ≡ Some negative.now) }
        ensures refused { OnErr result (self.new.negative ≡ None) }
    {
        self.filling = None;
        self.rendering.take();
        self.filling = fill(self.alloc, self.maker, &mut self.rows, negative)?;
        if self.filling.is_none() {
            let rendering = render(self.maker, &mut self.tokens, &mut self.middle, negative)?;
            self.rendering.replace(rendering);
        }
        Ok(())
    }

    /// Writes the negative that was made, with its number from 1, to a manifest of its file. Ok means that the sink took its lines,
    /// and a failure that it took a prefix of them; then the manifest is as before.
    #[inline(always)]
    pub fn write<S: Sink>(
        &self,
        number: &Numeral,
        manifest: &mut Manifest<'_>,
        sink: &mut S,
    ) -> Result<(), SinkError>
        requires made { IsSome self.now.negative }
        requires file { manifest.old.file ≡ self.now.making.tools.file }
        ensures { WritesMade S.Sink self.now number.now
            manifest.old sink.old manifest.new sink.new result }
    {
        match &self.filling {
            Some(filling) => {
                let entry = Entry::Filled(FilledNegative {
                    number,
                    lines: &self.rows.get(filling.opened.pair).unwrap().lines,
                    name: filling.token.name,
                    lexeme: filling.token.lexeme,
                });
                manifest.entry(sink, &entry)
            }
            None => {
                let rendering = self.rendering.as_ref().unwrap();
                let entry = rendered(number, self.maker, rendering, &self.tokens, &self.middle);
                manifest.entry(sink, &entry)
            }
        }
    }
}

// The entry of a negative whose edited list was rendered.
#[inline(never)]
fn rendered<'e>(
    number: &Numeral,
    maker: &Maker<'_>,
    rendering: &'e Rendering<'_>,
    tokens: &'e [u16],
    middle: &'e [u8],
) -> Entry<'e>
    requires { IsRenderedAs maker.now tokens.now middle.now rendering.now }
    ensures { IsEntryOf maker.now rendering.now.negative number.now result }
{
    Entry::Negative(NumberedNegative {
        number: number.number(),
        base: maker.number,
        negative: rendering.negative,
        tokens,
        rendered: rendering.spliced.parts(middle),
    })
}

// The negative without its token, and the token that fills its row, which is made where it isn't there. None where no row can be
// filled.
#[inline(always)]
fn fill<'m>(
    alloc: Global,
    maker: &'m Maker<'m>,
    rows: &mut Rows,
    negative: &Negative,
) -> Result<Option<Filling<'m>>, AllocError>
    requires placed { IsPlaced (length maker.now.base) negative.now.edit }
    requires named { IsNamedNegative maker.now.tools.file negative.now }
    requires rows { AreRows maker.now rows.old }
    ensures rows { AreRows maker.now rows.new }
    ensures fills { IfOk result (λ filling. IfSome filling (FillsRow maker.now rows.new)) }
    ensures of { IfOk result (λ filling. IfSome filling (IsFillingOf negative.now)) }
{
    if !maker.apart {
        return Ok(None);
    }
    let Some(opened) = open_negative(negative) else {
        return Ok(None);
    };
    let Some(token) = maker.tools.told(opened.token) else {
        return Ok(None);
    };
    if rows.settle(alloc, maker, opened.edit, opened.pair)? {
        Ok(Some(Filling { opened, token }))
    } else {
        Ok(None)
    }
}

// Puts the edited list and the middle of its text in place of what is there, and renders the list.
#[inline(never)]
fn render<'m>(
    maker: &'m Maker<'m>,
    list: &mut Vec<u16>,
    text: &mut Vec<u8>,
    negative: &Negative,
) -> Result<Rendering<'m>, AllocError>
    requires placed { IsPlaced (length maker.now.base) negative.now.edit }
    requires taken { TakesEdited maker.now negative.now.edit }
    requires named { IsNamedNegative maker.now.tools.file negative.now }
    ensures rendered { IfOk result (IsRenderedAs maker.now list.new.items text.new.items) }
    ensures of { IfOk result (λ rendering. rendering.negative ≡ negative.now) }
{
    apply_into(list, maker.base, &negative.edit)?;
    Ok(Rendering {
        negative: *negative,
        spliced: maker.near.render(text, list)?,
    })
}
