// Numbers for the spellings.

ghost use Rattle.std.specs.Prelude.{◌≡◌, ◌<◌, IfOk, length, map};
ghost use Rattle.std.specs.List.{All};
ghost use Rattle.cs_yacc.specs.Reading.Meaning as spec;
ghost use Rattle.cs_yacc.specs.Reading.AcceptedView.{parts_at, IsNumbered};
ghost use Rattle.cs_yacc.specs.Reading.SpellingView.{spelling_of};
ghost use Rattle.cs_yacc.specs.Reading.SymbolTable.{symbol_at, IsTable};

use crate::reading::accepted::Accepted;
use crate::reading::spelling::{Spelling, spelling_at};
use cs_grammar::{Rule, Symbol};
use std::alloc::{AllocError, Global};

/// The number of the start symbol: that of the item behind `%start`, or 1.
pub(crate) fn start_number(file: &Accepted<'_, '_, '_>) -> u16
    ensures { result ≡ spec.start_in (parts_at file.now) }
{
    let start = match file.parts.start {
        Some(placed) => spelling_at(placed.item),
        None => None,
    };
    match start {
        Some(spelling) => file.parts.lefts.number(spelling),
        None => 1,
    }
}

fn symbol(file: &Accepted<'_, '_, '_>, spelling: Spelling<'_>) -> Symbol
    ensures { result ≡ spec.symbol_in (parts_at file.now) (spelling_of spelling.entry) }
{
    if file.parts.lefts.has(spelling) {
        Symbol::Nonterminal(file.parts.lefts.number(spelling))
    } else {
        Symbol::Token(file.parts.tokens.number(spelling))
    }
}

/// The symbols of the spellings, in their order.
fn symbol_table(alloc: Global, file: &Accepted<'_, '_, '_>) -> Result<Vec<Symbol>, AllocError>
    ensures { IfOk result (λ v. IsTable v.items file.now) }
{
    let mut symbols = Vec::new(alloc);
    for spelling in file.parts.words.as_slice() {
        symbols.push(symbol(file, *spelling))?;
    }
    Ok(symbols)
}

/// The symbols at these places of the table.
fn symbols(alloc: Global, table: &[Symbol], places: &[u32]) -> Result<Vec<Symbol>, AllocError>
    requires { All (λ k. k < length table.now) places.now }
    ensures { IfOk result (λ v. v.items ≡ map (symbol_at table.now) places.now) }
{
    let mut symbols = Vec::with_capacity(alloc, places.len())?;
    for place in places {
        symbols.push(table[*place as usize])?;
    }
    Ok(symbols)
}

/// The number of a left side. The last one is asked first, since the rules of a left side mostly stand together.
fn left_number<'a>(
    file: &Accepted<'_, '_, 'a>,
    last: Option<(Spelling<'a>, u16)>,
    left: Spelling<'a>,
) -> u16
    requires { IsNumbered file.now last }
    ensures { result ≡ spec.number_in file.now.parts.now.lefts (spelling_of left.entry) }
{
    match last {
        Some((spelling, number)) if spelling == left => number,
        _ => file.parts.lefts.number(left),
    }
}

/// The rules by numbers.
pub(crate) fn productions(
    alloc: Global,
    file: &Accepted<'_, '_, '_>,
) -> Result<Vec<Rule>, AllocError>
    ensures { IfOk result (λ v. v.items ≡ spec.productions (parts_at file.now)) }
{
    let table = symbol_table(alloc, file)?;
    let mut rules = Vec::with_capacity(alloc, file.parts.rules.len())?;
    let mut last = None;
    for rule in &file.parts.rules {
        let left = left_number(file, last, rule.left);
        last = Some((rule.left, left));
        let right = symbols(alloc, &table, rule.right)?;
        rules.push(Rule::new(left, right))?;
    }
    Ok(rules)
}
