// The way back: how an item was found.

ghost use Rattle.std.specs.Prelude.{◌≤◌, ◌<◌, None, Some, All, length};
ghost use Rattle.cs_grammar.specs.Grammar.{IsNumberOf};
ghost use Rattle.cs_member.specs.Tables.Item.{IsItem};
ghost use Rattle.cs_member.specs.Tables.Tables.{IsQuestion};
ghost use Rattle.cs_member.specs.declared.tables.item.Item.{Item};
ghost use Rattle.cs_member.specs.declared.derivation.back.Sought.TheVariants.{Exactly};
ghost use Rattle.cs_member.specs.declared.chart.chart.Position.{Position};
ghost use Rattle.cs_member.specs.Chart.Chart.{IsRow, IsPosition};
ghost use Rattle.cs_member.specs.Tables.Whole.{IsTables};
ghost use Rattle.cs_member.specs.Derivation.Back.{IsChild, IsSought, StandsBefore};
ghost use Rattle.cs_member.specs.Chart.Asked.{IsChartOf};
ghost use Rattle.cs_member.specs.Derivation.Asked.{FindsPlace, FindsLead, FindsRow, AreOver, FindsFront, FindsAt, FindsByToken, FindsBySpan, FindsBy, FindsWay};

use crate::chart::{Position, Question, Row};
use crate::tables::{Front, Item, has, have_empty, over};
use cs_grammar::Grammar;

// What is sought: this item, or one at the end of a rule of this left side.
#[derive(Clone, Copy, Debug)]
pub(crate) enum Sought {
    Exactly(Item),
    End(u16),
}

// An item that is found, and the one before its child, the last of its symbols whose tree isn't empty. The child begins at a
// position.
#[derive(Clone, Copy, Debug)]
pub(crate) struct Back {
    pub(crate) before: Item,
    pub(crate) begin: u16,
    pub(crate) found: Item,
}

// The place that is sought in a rule.
fn place_sought(grammar: &Grammar, rule: u16, sought: Sought) -> Option<usize>
    requires rule { IsNumberOf (length grammar.now.rules) rule }
    requires sought { IsSought grammar.now sought }
    ensures { FindsPlace grammar.now sought rule result }
{
    match sought {
        Sought::Exactly(item) => {
            if item.rule == rule {
                return Some(item.place as usize);
            }
        }
        Sought::End(left) => {
            let production = grammar.rule(rule);
            if production.left() == left {
                return Some(production.right().len());
            }
        }
    }
    None
}

// What is sought, where the item or one behind it and symbols that have empty trees is that.
fn lead(question: &Question, first: Item, sought: Sought) -> Option<Item>
    requires question { IsQuestion question.now.grammar.now question.now.tables.now }
    requires first { IsItem question.now.grammar.now first }
    requires sought { IsSought question.now.grammar.now sought }
    ensures { FindsLead question.now sought first result }
{
    let _well_formed = question.grammar.rules();
    let place = place_sought(question.grammar, first.rule, sought)?;
    let right = question.grammar.rule(first.rule).right();
    let start = first.place as usize;
    if place < start || !have_empty(&question.tables.empties, &right[start..place]) {
        return None;
    }
    Some(Item {
        rule: first.rule,
        place: place as u16,
    })
}

// The row with this origin whose item leads to what is sought, with the awaited symbol taken.
fn find_row(
    question: &Question,
    rows: &[Row],
    begin: u16,
    from: u16,
    sought: Sought,
) -> Option<Back>
    requires question { IsQuestion question.now.grammar.now question.now.tables.now }
    requires rows { All (IsRow question.now.grammar.now) rows.now }
    requires sought { IsSought question.now.grammar.now sought }
    ensures { FindsRow question.now sought rows.now begin from result }
{
    for row in rows {
        if has(row.words.as_slice(), from) {
            if let Some(found) = lead(question, over(row.item), sought) {
                return Some(Back {
                    before: row.item,
                    begin,
                    found,
                });
            }
        }
    }
    None
}

// The front that leads to what is sought.
fn find_front(question: &Question, fronts: &[Front], begin: u16, sought: Sought) -> Option<Back>
    requires question { IsQuestion question.now.grammar.now question.now.tables.now }
    requires fronts { AreOver question.now fronts.now }
    requires sought { IsSought question.now.grammar.now sought }
    ensures { FindsFront question.now sought fronts.now begin result }
{
    for front in fronts {
        if let Some(found) = lead(question, front.item, sought) {
            let before = Item {
                rule: front.item.rule,
                place: front.item.place - 1,
            };
            return Some(Back {
                before,
                begin,
                found,
            });
        }
    }
    None
}

// The bucket of a symbol, and its fronts.
#[derive(Clone, Copy, Debug)]
struct Over<'f> {
    bucket: u16,
    fronts: &'f [Front],
}

// The item with this origin that leads to what is sought over a symbol that begins at a position: it stands there in the
// symbol's bucket, or it begins its rule there.
fn find_at(
    question: &Question,
    position: &Position,
    over: &Over<'_>,
    begin: u16,
    from: u16,
    sought: Sought,
) -> Option<Back>
    requires question { IsQuestion question.now.grammar.now question.now.tables.now }
    requires position { IsPosition question.now.grammar.now begin position.now }
    requires bucket { over.now.bucket ≤ question.now.grammar.now.nonterminals }
    requires fronts { AreOver question.now over.now.fronts.now }
    requires sought { IsSought question.now.grammar.now sought }
    ensures { FindsAt question.now sought position.now over.now.bucket over.now.fronts.now
        begin from result }
{
    if from == begin {
        return find_front(question, over.fronts, begin, sought);
    }
    find_row(
        question,
        position.rows.rows(over.bucket),
        begin,
        from,
        sought,
    )
}

// The way back over the token before a position.
fn by_token(
    question: &Question,
    chart: &[Position],
    at: u16,
    from: u16,
    sought: Sought,
) -> Option<Back>
    requires tables { IsTables question.now.grammar.now question.now.tables.now }
    requires tokens { All (IsNumberOf question.now.grammar.now.tokens) question.now.tokens.now }
    requires chart { IsChartOf question.now chart.now }
    requires first { 0 < at }
    requires last { at ≤ length question.now.tokens.now }
    requires sought { IsSought question.now.grammar.now sought }
    ensures { FindsByToken question.now chart.now sought at from result }
{
    let _well_formed = question.grammar.rules();
    let begin = at - 1;
    let token = question.tokens[begin as usize];
    let fronts = &question.tables.tokens[token as usize];
    let over = Over { bucket: 0, fronts };
    find_at(question, &chart[begin as usize], &over, begin, from, sought)
}

// The way back over a span up to a position.
fn by_span(
    question: &Question,
    chart: &[Position],
    at: u16,
    number: usize,
    from: u16,
    sought: Sought,
) -> Option<Back>
    requires tables { IsTables question.now.grammar.now question.now.tables.now }
    requires chart { IsChartOf question.now chart.now }
    requires child { IsChild chart.now at (Some number) }
    requires sought { IsSought question.now.grammar.now sought }
    ensures { FindsBySpan question.now chart.now sought at number from result }
{
    let _well_formed = question.grammar.rules();
    let span = chart[at as usize].spans[number];
    let fronts = &question.tables.nonterminals[span.nonterminal as usize];
    let over = Over {
        bucket: span.nonterminal,
        fronts,
    };
    let position = &chart[span.from as usize];
    find_at(question, position, &over, span.from, from, sought)
}

// The way back over a child up to a position: the token before it, or the span of a number.
pub(crate) fn find_by(
    question: &Question,
    chart: &[Position],
    at: u16,
    child: Option<usize>,
    from: u16,
    sought: Sought,
) -> Option<Back>
    requires tables { IsTables question.now.grammar.now question.now.tables.now }
    requires tokens { All (IsNumberOf question.now.grammar.now.tokens) question.now.tokens.now }
    requires chart { IsChartOf question.now chart.now }
    requires first { 0 < at }
    requires last { at ≤ length question.now.tokens.now }
    requires child { IsChild chart.now at child }
    requires sought { IsSought question.now.grammar.now sought }
    ensures { FindsBy question.now chart.now sought at child from result }
{
    match child {
        None => by_token(question, chart, at, from, sought),
        Some(number) => by_span(question, chart, at, number, from, sought),
    }
}

// How a child of an item that stands at a position was found.
#[derive(Clone, Copy, Debug)]
pub(crate) struct WayBack {
    pub(crate) child: Option<usize>,
    pub(crate) back: Back,
}

// The way back from an item that stands at a position.
pub(crate) fn find_way(
    question: &Question,
    chart: &[Position],
    at: u16,
    from: u16,
    item: Item,
) -> WayBack
    requires tables { IsTables question.now.grammar.now question.now.tables.now }
    requires tokens { All (IsNumberOf question.now.grammar.now.tokens) question.now.tokens.now }
    requires chart { IsChartOf question.now chart.now }
    requires last { at ≤ length question.now.tokens.now }
    requires item { StandsBefore chart.now item from at }
    ensures { FindsWay question.now chart.now item at from result }
{
    let sought = Sought::Exactly(item);
    if let Some(back) = by_token(question, chart, at, from, sought) {
        return WayBack { child: None, back };
    }
    for number in 0..chart[at as usize].spans.len() {
        if let Some(back) = by_span(question, chart, at, number, from, sought) {
            return WayBack {
                child: Some(number),
                back,
            };
        }
    }
    unreachable!()
}
