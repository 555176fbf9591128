// The position that is being made.

ghost use Rattle.std.specs.Prelude.{◌≡◌, ◌≤◌, ◌<◌, ◌+◌, ◌*◌, ◌↔◌, [], Some, All, IfOk, IsTrue, OnOk, length};
ghost use Rattle.cs_member.specs.declared.chart.now.Origins.{Origins};
ghost use Rattle.cs_member.specs.Tables.Item.{IsItem, NeverComes};
ghost use Rattle.cs_member.specs.Tables.Tables.{IsQuestion};
ghost use Rattle.cs_member.specs.Tables.Sets.{InWord, InWords};
ghost use Rattle.cs_member.specs.Chart.Now.{IsNow, AreEnds, Ends, Stood, AreShort};
ghost use Rattle.cs_member.specs.Chart.Asked.{HoldsItem, MayAdd, StaysHere, KeepsHere, StoodAt, EndsIn, IsPutBy};

use crate::tables::{
    Item, Next, Tables, Word, add_all, add_bits, bits_at, clear_bits, next_of, same,
};
use cs_grammar::{Grammar, Symbol, place_of};
use std::alloc::{AllocError, Global};

// A grammar with its tables, and a list of tokens.
#[derive(Debug, Drop)]
pub(crate) struct Question<'q> {
    pub(crate) grammar: &'q Grammar,
    pub(crate) tables: &'q Tables,
    pub(crate) tokens: &'q [u16],
}

impl Question<'_> {
    // The place of an item among all.
    fn place(&self, item: Item) -> usize
        requires tables { IsQuestion self.now.grammar.now self.now.tables.now }
        requires item { IsItem self.now.grammar.now item }
        ensures { result < self.now.tables.now.items }
    {
        self.tables.bases[place_of(item.rule)] + item.place as usize
    }
}

// A tree of the nonterminal yields the tokens from a position to that at which the span is kept. Its last tokens are those
// of the span of this number, found earlier at that position, or without one the last token.
#[derive(Clone, Copy, Debug)]
pub(crate) struct Span {
    pub(crate) nonterminal: u16,
    pub(crate) from: u16,
    pub(crate) cause: Option<u32>,
}

// The origins of an item.
#[derive(Debug, Drop)]
pub(crate) struct Origins {
    pub(crate) item: Item,
    pub(crate) set: Vec<u64>,
}

// What is found at a position so far.
#[derive(Debug, Drop)]
pub(crate) struct Now {
    pub(crate) origins: Vec<Origins>,
    // Where spans begin, in words of 64 positions: those of each nonterminal for the first word, and so on.
    pub(crate) ends: Vec<u64>,
    pub(crate) spans: Vec<Span>,
}

impl Now {
    pub(crate) fn new(alloc: Global, grammar: &Grammar) -> Result<Now, AllocError>
        ensures now { IfOk result (IsNow grammar.now) }
        ensures origins { IfOk result (λ now. now.origins.items ≡ []) }
        ensures spans { IfOk result (λ now. now.spans.items ≡ []) }
    {
        let many = grammar.nonterminals() as usize + 1;
        Ok(Now {
            origins: Vec::new(alloc),
            ends: Vec::with_capacity(alloc, many)?,
            spans: Vec::with_capacity(alloc, many)?,
        })
    }

    // Forgets what was found, and keeps the memory for what is found at the next position.
    pub(crate) fn clear(&mut self, grammar: &Grammar)
        requires { IsNow grammar.now self.old }
        ensures now { IsNow grammar.now self.new }
        ensures origins { self.new.origins.items ≡ [] }
        ensures spans { self.new.spans.items ≡ [] }
    {
        forget_ends(grammar, &mut self.ends, &self.spans);
        self.origins.clear();
        self.spans.clear();
    }
}

// Where a nonterminal's bits for a word of positions are kept.
fn end_place(grammar: &Grammar, left: u16, at: u16) -> u32
    ensures { result ≡ at * (grammar.now.nonterminals + 1) + left }
{
    at as u32 * (grammar.nonterminals() as u32 + 1) + left as u32
}

// Takes the bits of the spans away.
fn forget_ends(grammar: &Grammar, ends: &mut Vec<u64>, spans: &[Span])
    requires { AreEnds (grammar.now.nonterminals + 1) ends.old.items spans.now }
    ensures { AreEnds (grammar.now.nonterminals + 1) ends.new.items [] }
{
    for span in spans {
        let place = end_place(grammar, span.nonterminal, span.from / 64);
        clear_bits(ends, place);
    }
}

// Where the origins of the item are kept, by a table of guesses.
fn find(
    alloc: Global,
    origins: &mut Vec<Origins>,
    guesses: &mut [usize],
    place: usize,
    item: Item,
) -> Result<usize, AllocError>
    requires { place < length guesses.old }
    ensures size { OnOk result (length guesses.new ≡ length guesses.old) }
    ensures there { IfOk result (HoldsItem origins.new.items item) }
    ensures added { OnOk result (MayAdd origins.old.items origins.new.items) }
    ensures items { OnOk result (KeepsHere item origins.old.items origins.new.items) }
{
    let guess = guesses[place];
    if guess < origins.len() && same(origins[guess].item, item) {
        return Ok(guess);
    }
    let last = origins.len();
    guesses[place] = last;
    origins.push(Origins {
        item,
        set: Vec::new(alloc),
    })?;
    Ok(last)
}

// Puts the words into the origins at a place.
fn stand_at(origins: &mut Vec<Origins>, place: usize, words: &[Word]) -> Result<(), AllocError>
    requires place { place < length origins.old.items }
    requires short { AreShort origins.old.items }
    requires words { All (λ word. word.at < 1024) words.now }
    ensures short { OnOk result (AreShort origins.new.items) }
    ensures items { OnOk result (StaysHere origins.old.items origins.new.items) }
    ensures stood { OnOk result (StoodAt place words.now origins.old.items origins.new.items) }
{
    add_all(&mut origins[place].set, words)?;
    Ok(())
}

// Puts the item with these origins.
fn stand(
    alloc: Global,
    origins: &mut Vec<Origins>,
    guesses: &mut [usize],
    place: usize,
    item: Item,
    words: &[Word],
) -> Result<(), AllocError>
    requires place { place < length guesses.old }
    requires short { AreShort origins.old.items }
    requires words { All (λ word. word.at < 1024) words.now }
    ensures size { OnOk result (length guesses.new ≡ length guesses.old) }
    ensures short { OnOk result (AreShort origins.new.items) }
    ensures items { OnOk result (KeepsHere item origins.old.items origins.new.items) }
    ensures stood { OnOk result (Stood item (InWords words.now)
        origins.old.items origins.new.items) }
{
    let found = find(alloc, origins, guesses, place, item)?;
    stand_at(origins, found, words)?;
    Ok(())
}

// Adds a span for each bit.
fn end_bits(
    spans: &mut Vec<Span>,
    left: u16,
    cause: Option<u32>,
    word: Word,
) -> Result<(), AllocError>
    requires { word.at < 1024 }
    ensures { OnOk result (Ends left cause (InWord word) spans.old.items spans.new.items) }
{
    let mut bits = word.bits;
    while bits != 0 {
        let bit = bits.trailing_zeros();
        spans.push(Span {
            nonterminal: left,
            from: word.at * 64 + bit as u16,
            cause,
        })?;
        bits &= !(1u64 << bit);
    }
    Ok(())
}

fn end_word(
    now: &mut Now,
    grammar: &Grammar,
    left: u16,
    cause: Option<u32>,
    word: Word,
) -> Result<(), AllocError>
    requires now { IsNow grammar.now now.old }
    requires left { left ≤ grammar.now.nonterminals }
    requires word { word.at < 1024 }
    ensures now { OnOk result (IsNow grammar.now now.new) }
    ensures origins { OnOk result (now.new.origins.items ≡ now.old.origins.items) }
    ensures ends { OnOk result (Ends left cause (InWord word)
        now.old.spans.items now.new.spans.items) }
{
    let place = end_place(grammar, left, word.at);
    let fresh = Word {
        at: word.at,
        bits: word.bits & !bits_at(&now.ends, place),
    };
    if fresh.bits == 0 {
        return Ok(());
    }
    end_bits(&mut now.spans, left, cause, fresh)?;
    add_bits(&mut now.ends, place, word.bits)?;
    Ok(())
}

// Adds spans that aren't there yet.
fn end(
    now: &mut Now,
    grammar: &Grammar,
    left: u16,
    cause: Option<u32>,
    words: &[Word],
) -> Result<(), AllocError>
    requires now { IsNow grammar.now now.old }
    requires left { left ≤ grammar.now.nonterminals }
    requires words { All (λ word. word.at < 1024) words.now }
    ensures now { OnOk result (IsNow grammar.now now.new) }
    ensures origins { OnOk result (now.new.origins.items ≡ now.old.origins.items) }
    ensures ends { OnOk result (EndsIn left cause (InWords words.now) now.old now.new) }
{
    for word in words {
        end_word(now, grammar, left, cause, *word)?;
    }
    Ok(())
}

// What comes at a position, and how it is found.
#[derive(Clone, Copy, Debug)]
pub(crate) struct Way {
    pub(crate) ahead: Option<u16>,
    pub(crate) cause: Option<u32>,
}

// Whether no tree of a nonterminal can begin: it has no empty one, and no token comes.
fn never_comes(question: &Question, ahead: Option<u16>, nonterminal: u16) -> bool
    requires question { IsQuestion question.now.grammar.now question.now.tables.now }
    requires nonterminal { nonterminal ≤ question.now.grammar.now.nonterminals }
    ensures { IsTrue result ↔ NeverComes question.now.grammar.now ahead nonterminal }
{
    ahead.is_none() && question.tables.empties[nonterminal as usize] == 0
}

// Puts an item with origins, and also it behind further symbols that have empty trees.
pub(crate) fn put(
    alloc: Global,
    question: &Question,
    now: &mut Now,
    guesses: &mut [usize],
    way: Way,
    first: Item,
    words: &[Word],
) -> Result<(), AllocError>
    requires now { IsNow question.now.grammar.now now.old }
    requires question { IsQuestion question.now.grammar.now question.now.tables.now }
    requires guesses { length guesses.old ≡ question.now.tables.now.items }
    requires first { IsItem question.now.grammar.now first }
    requires words { All (λ word. word.at < 1024) words.now }
    ensures now { OnOk result (IsNow question.now.grammar.now now.new) }
    ensures guesses { OnOk result (length guesses.new ≡ question.now.tables.now.items) }
    ensures put { OnOk result (IsPutBy question.now way first (InWords words.now) now.old now.new) }
{
    let rule = question.grammar.rule(first.rule);
    for place in first.place as usize..rule.right().len() + 1 {
        let item = Item {
            rule: first.rule,
            place: place as u16,
        };
        match next_of(question.grammar, item) {
            Next::Done(left) => {
                end(now, question.grammar, left, way.cause, words)?;
                return Ok(());
            }
            Next::Awaited(Symbol::Token(token)) => {
                if way.ahead == Some(token) {
                    let guess = question.place(item);
                    stand(alloc, &mut now.origins, guesses, guess, item, words)?;
                }
                return Ok(());
            }
            Next::Awaited(Symbol::Nonterminal(nonterminal)) => {
                if never_comes(question, way.ahead, nonterminal) {
                    return Ok(());
                }
                let guess = question.place(item);
                stand(alloc, &mut now.origins, guesses, guess, item, words)?;
                if question.tables.empties[nonterminal as usize] == 0 {
                    return Ok(());
                }
            }
        }
    }
    Ok(())
}
