// The inner nodes of chains, by their rules, as the lines of chains have them.

ghost use Rattle.std.specs.Prelude.{◌≡◌, IfOk, IfSome, IsTrue, length};
ghost use Rattle.cs_grammar.specs.Grammar.{IsNumberOf};
ghost use Rattle.cs_least.specs.Cost.Rank.{IsCapped, plus};
ghost use Rattle.cs_chain_text.specs.Rows.Around.{Finds};
ghost use Rattle.cs_chain_text.specs.Rows.Rows.{AreCoreLines, AreInside, HasCoreParts, told_by};

use crate::rows::around::tokens_in;
use crate::rows::parts::{are_named, code_piece, is_number_of, names_piece, number_piece};
use cs_chain::Core;
use cs_least::{Cost, Costs};
use cs_manifest::Piece;
use cs_yacc::YaccFile;
use std::alloc::{AllocError, Global};
use std::marker::Model;

// A part of these lines has at most so many bytes.
const MOST: usize = 256;

// The place of lines that weren't asked for.
const NEW: usize = usize::MAX;

// The place of lines that aren't kept, since a part is long.
const LONG: usize = usize::MAX - 1;

// A node of a rule, and what the lines of chains have of it.
#[derive(Drop)]
pub(crate) struct CoreLines {
    pub(crate) rule: u16,
    pub(crate) left: u16,
    pub(crate) core: Core,
    pub(crate) tokens: Vec<u16>,
    // The number of the rule.
    pub(crate) number: Piece,
    pub(crate) code: Piece,
    pub(crate) names: Piece,
}

// The tokens of the node, where it has a size.
fn inside(
    alloc: Global,
    costs: &Costs,
    left: u16,
    core: &Core,
) -> Result<Option<Vec<u16>>, AllocError>
    ensures { Finds (λ tokens. AreInside costs.now.grammar left core.now tokens.items) result }
{
    match core.cost {
        Cost::Least(_) => tokens_in(alloc, costs.grammar(), left, core.code.rules()),
        _ => Ok(Some(Vec::new(alloc))),
    }
}

// Those of a rule. None where a part is long.
fn core_lines(
    alloc: Global,
    file: &YaccFile,
    costs: &Costs,
    rule: u16,
) -> Result<Option<CoreLines>, AllocError>
    requires { IsNumberOf (length costs.now.grammar.rules) rule }
    ensures { Finds (AreCoreLines file.now costs.now) result }
{
    let left = costs.grammar().rule(rule).left();
    let core = Core::new(alloc, costs, rule)?;
    let Some(tokens) = inside(alloc, costs, left, &core)? else {
        return Ok(None);
    };
    with_parts(alloc, file, rule, left, core, tokens)
}

// The lines with their parts.
fn with_parts(
    alloc: Global,
    file: &YaccFile,
    rule: u16,
    left: u16,
    core: Core,
    tokens: Vec<u16>,
) -> Result<Option<CoreLines>, AllocError>
    ensures { Finds (HasCoreParts file.now rule left core tokens.items) result }
{
    if !are_named(file, &tokens) {
        return Ok(None);
    }
    let Some(number) = number_piece(alloc, file, rule, MOST)? else {
        return Ok(None);
    };
    let Some(code) = code_piece(alloc, file, core.code.rules(), MOST)? else {
        return Ok(None);
    };
    let Some(names) = names_piece(alloc, file, &tokens, MOST)? else {
        return Ok(None);
    };
    Ok(Some(CoreLines {
        rule,
        left,
        core,
        tokens,
        number,
        code,
        names,
    }))
}

/// The lines of the rules that were asked for so far, of a file and the costs of its grammar.
#[derive(Drop)]
pub(crate) struct Cores<'a> {
    file: &'a YaccFile,
    costs: &'a Costs<'a>,
    // By the numbers of rules, where their lines stand.
    places: Vec<usize>,
    lines: Vec<CoreLines>,
}

impl<'a> Model for Cores<'a> {
    ghost use Rattle.cs_chain_text.specs.Rows.Rows.{AreCores, Told};

    ghost Value = { Told };

    ghost view = { λ c. record { file = c.file.now; of = c.costs.now } };

    ghost invariant = { λ c. AreCores c.file.now c.costs.now c.lines.items };
}

impl<'a> Cores<'a> {
    /// None yet.
    pub(crate) fn new(
        alloc: Global,
        file: &'a YaccFile,
        costs: &'a Costs<'a>,
    ) -> Result<Cores<'a>, AllocError>
        ensures { IfOk result (λ cores. cores ≡ told_by file.now costs.now) }
    {
        let rules = costs.grammar().rules().len();
        let mut places = Vec::new(alloc);
        places.resize(rules + 1, NEW)?;
        Ok(Cores {
            file,
            costs,
            places,
            lines: Vec::new(alloc),
        })
    }

    /// Makes those of a rule that wasn't asked for.
    pub(crate) fn keep(&mut self, alloc: Global, rule: u16) -> Result<(), AllocError>
        ensures { self.new ≡ self.old }
    {
        if !self.is_new(rule) {
            return Ok(());
        }
        self.note(rule, LONG);
        if let Some(lines) = core_lines(alloc, self.file, self.costs, rule)? {
            let place = self.lines.len();
            self.lines.push(lines)?;
            self.note(rule, place);
        }
        Ok(())
    }

    // Whether it is a rule that wasn't asked for.
    fn is_new(&self, rule: u16) -> bool
        ensures { IsTrue result → IsNumberOf (length self.now.of.grammar.rules) rule }
    {
        let rules = self.costs.grammar().rules().len();
        is_number_of(rules, rule) && self.place_of(rule) == NEW
    }

    // Where the lines of a rule stand.
    #[inline(always)]
    fn place_of(&self, rule: u16) -> usize {
        match self.places.get(rule as usize) {
            Some(place) => *place,
            None => LONG,
        }
    }

    // Notes where the lines of a rule stand.
    fn note(&mut self, rule: u16, place: usize)
        ensures { self.new ≡ self.old }
    {
        if let Some(noted) = self.places.get_mut(rule as usize) {
            *noted = place;
        }
    }

    /// Those of a rule, where they are kept.
    pub(crate) fn get(&self, rule: u16) -> Option<&CoreLines>
        ensures { IfSome result (λ lines. AreCoreLines self.now.file self.now.of lines.now) }
    {
        self.lines.get(self.place_of(rule))
    }

    /// What a frame and a node in it cost together.
    pub(crate) fn plus(&self, frame: Cost, node: Cost) -> Cost
        requires frame { IsCapped self.now.of.weights.limit frame }
        requires node { IsCapped self.now.of.weights.limit node }
        ensures { result ≡ plus self.now.of.weights.limit frame node }
    {
        self.costs.plus(frame, node)
    }
}
