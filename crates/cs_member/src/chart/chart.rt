// The chart: what is found at each position.

ghost use Rattle.std.specs.Prelude.{◌≡◌, ◌≤◌, ◌<◌, [], None, All, IfOk, OnOk, length, slice_get};
ghost use Rattle.cs_grammar.specs.Grammar.{IsNumberOf};
ghost use Rattle.cs_member.specs.declared.TheConstants.{MOST_LENGTH};
ghost use Rattle.cs_member.specs.Tables.Tables.{IsQuestion};
ghost use Rattle.std.specs.Global.{Vec};
ghost use Rattle.cs_member.specs.declared.chart.now.Span.{Span};
ghost use Rattle.cs_member.specs.declared.chart.chart.Row.{Row};
ghost use Rattle.cs_member.specs.Chart.Now.{IsNow, AreHere, AreShort};
ghost use Rattle.cs_member.specs.Chart.Buckets.{AreBuckets, rows_in};
ghost use Rattle.cs_member.specs.Chart.Chart.{IsRow, OfRows, AreBefore, ArePositions, Grows, AreRows, bucket_of};
ghost use Rattle.cs_member.specs.Tables.Sets.{Has};
ghost use Rattle.cs_member.specs.Tables.Expecting.{Stays};
ghost use Rattle.cs_member.specs.Chart.Asked.{IsChartOf, HasDescents, ArePutBy, FollowsBegun, AreFrontsOf, ScanPuts, FollowPuts, AreCausedIn, AllFollowed, ExpectsStart, AreAwaitedOf, IsDescendedOf, AreRowsAt, AreAwaitedAt, ArePassedAt, IsScannedAt, IsFromAt, IsMadeAt};

use crate::MOST_LENGTH;
use crate::chart::buckets::Buckets;
use crate::chart::now::{Now, Origins, Question, Span, Way, put};
use crate::tables::{Front, Item, Next, Word, add_all, next_of, over, pack, stands, word_of};
use cs_grammar::Symbol;
use smallvec::SmallVec;
use std::alloc::{AllocError, Global};

// An item at a position, with its origins.
#[derive(Debug, Drop)]
pub(crate) struct Row {
    pub(crate) item: Item,
    pub(crate) words: SmallVec<Word, 1>,
}

#[derive(Debug, Drop)]
pub(crate) struct Position {
    // By awaited nonterminal; at 0 those that await the token.
    pub(crate) rows: Buckets,
    // The nonterminals of which rules may begin here, as bits.
    pub(crate) expected: Vec<u64>,
    pub(crate) spans: Vec<Span>,
}

// Puts the items of rows, with the awaited symbol taken.
fn put_rows(
    alloc: Global,
    question: &Question,
    now: &mut Now,
    guesses: &mut [usize],
    way: Way,
    rows: &[Row],
) -> Result<(), AllocError>
    requires now { IsNow question.now.grammar.now now.old }
    requires question { IsQuestion question.now.grammar.now question.now.tables.now }
    requires guesses { length guesses.old ≡ question.now.tables.now.items }
    requires rows { All (IsRow question.now.grammar.now) rows.now }
    ensures now { OnOk result (IsNow question.now.grammar.now now.new) }
    ensures guesses { OnOk result (length guesses.new ≡ question.now.tables.now.items) }
    ensures put { OnOk result (ArePutBy question.now way (OfRows rows.now) now.old now.new) }
{
    for row in rows {
        put(
            alloc,
            question,
            now,
            guesses,
            way,
            over(row.item),
            row.words.as_slice(),
        )?;
    }
    Ok(())
}

// The front of rules that may begin at a position.
#[derive(Debug, Drop)]
struct Begun<'b> {
    expected: &'b [u64],
    fronts: &'b [Front],
    from: u16,
}

// Puts the items at the fronts of expected rules.
fn put_fronts(
    alloc: Global,
    question: &Question,
    now: &mut Now,
    guesses: &mut [usize],
    way: Way,
    begun: &Begun,
) -> Result<(), AllocError>
    requires now { IsNow question.now.grammar.now now.old }
    requires question { IsQuestion question.now.grammar.now question.now.tables.now }
    requires guesses { length guesses.old ≡ question.now.tables.now.items }
    requires fronts { AreFrontsOf question.now begun.now.fronts.now }
    ensures now { OnOk result (IsNow question.now.grammar.now now.new) }
    ensures guesses { OnOk result (length guesses.new ≡ question.now.tables.now.items) }
    ensures put { OnOk result (ArePutBy question.now way (FollowsBegun begun.now) now.old now.new) }
{
    let words = [word_of(begun.from)];
    for front in begun.fronts {
        if stands(begun.expected, front.left) {
            put(alloc, question, now, guesses, way, front.item, &words)?;
        }
    }
    Ok(())
}

// Adds what follows from the token before the position.
fn scan(
    alloc: Global,
    question: &Question,
    chart: &[Position],
    now: &mut Now,
    guesses: &mut [usize],
    way: Way,
) -> Result<(), AllocError>
    requires now { IsNow question.now.grammar.now now.old }
    requires question { IsQuestion question.now.grammar.now question.now.tables.now }
    requires tokens { All (IsNumberOf question.now.grammar.now.tokens) question.now.tokens.now }
    requires length { length question.now.tokens.now ≤ MOST_LENGTH }
    requires guesses { length guesses.old ≡ question.now.tables.now.items }
    requires chart { ArePositions question.now.grammar.now chart.now }
    requires first { 0 < length chart.now }
    requires last { length chart.now ≤ length question.now.tokens.now }
    requires before { AreBefore question.now.grammar.now (length chart.now) now.old }
    ensures now { OnOk result (IsNow question.now.grammar.now now.new) }
    ensures guesses { OnOk result (length guesses.new ≡ question.now.tables.now.items) }
    ensures before { OnOk result (AreBefore question.now.grammar.now (length chart.now) now.new) }
    ensures put { OnOk result (ScanPuts question.now way chart.now now.old now.new) }
{
    let _well_formed = question.grammar.rules();
    let last = chart.len() - 1;
    let token = question.tokens[last];
    let position = &chart[last];
    put_rows(alloc, question, now, guesses, way, position.rows.rows(0))?;
    let begun = Begun {
        expected: &position.expected,
        fronts: &question.tables.tokens[token as usize],
        from: last as u16,
    };
    put_fronts(alloc, question, now, guesses, way, &begun)?;
    Ok(())
}

// Adds what follows from a span.
fn follow(
    alloc: Global,
    question: &Question,
    chart: &[Position],
    now: &mut Now,
    guesses: &mut [usize],
    ahead: Option<u16>,
    number: u32,
) -> Result<(), AllocError>
    requires now { IsNow question.now.grammar.now now.old }
    requires question { IsQuestion question.now.grammar.now question.now.tables.now }
    requires guesses { length guesses.old ≡ question.now.tables.now.items }
    requires chart { ArePositions question.now.grammar.now chart.now }
    requires number { number < length now.old.spans.items }
    requires before { AreBefore question.now.grammar.now (length chart.now) now.old }
    ensures now { OnOk result (IsNow question.now.grammar.now now.new) }
    ensures guesses { OnOk result (length guesses.new ≡ question.now.tables.now.items) }
    ensures before { OnOk result (AreBefore question.now.grammar.now (length chart.now) now.new) }
    ensures put { OnOk result (FollowPuts question.now ahead number chart.now now.old now.new) }
{
    let _well_formed = question.grammar.rules();
    let span = now.spans[number as usize];
    let position = &chart[span.from as usize];
    let way = Way {
        ahead,
        cause: Some(number),
    };
    put_rows(
        alloc,
        question,
        now,
        guesses,
        way,
        position.rows.rows(span.nonterminal),
    )?;
    let begun = Begun {
        expected: &position.expected,
        fronts: &question.tables.nonterminals[span.nonterminal as usize],
        from: span.from,
    };
    put_fronts(alloc, question, now, guesses, way, &begun)?;
    Ok(())
}

// Adds what follows from the spans.
fn complete(
    alloc: Global,
    question: &Question,
    chart: &[Position],
    now: &mut Now,
    guesses: &mut [usize],
    ahead: Option<u16>,
) -> Result<(), AllocError>
    requires now { IsNow question.now.grammar.now now.old }
    requires question { IsQuestion question.now.grammar.now question.now.tables.now }
    requires guesses { length guesses.old ≡ question.now.tables.now.items }
    requires chart { ArePositions question.now.grammar.now chart.now }
    requires before { AreBefore question.now.grammar.now (length chart.now) now.old }
    ensures now { OnOk result (IsNow question.now.grammar.now now.new) }
    ensures guesses { OnOk result (length guesses.new ≡ question.now.tables.now.items) }
    ensures before { OnOk result (AreBefore question.now.grammar.now (length chart.now) now.new) }
    ensures grows { OnOk result (Grows question.now.grammar.now ahead now.old now.new) }
    ensures caused { OnOk result (AreCausedIn question.now chart.now now.old now.new) }
    ensures followed { OnOk result (AllFollowed question.now ahead chart.now now.new) }
{
    for number in 0..u32::MAX {
        if number as usize >= now.spans.len() {
            return Ok(());
        }
        follow(alloc, question, chart, now, guesses, ahead, number)?;
    }
    Err(AllocError)
}

// The rows of what stands at a position.
fn rows_of(alloc: Global, question: &Question, origins: &[Origins]) -> Result<Buckets, AllocError>
    requires here { AreHere question.now.grammar.now origins.now }
    requires short { AreShort origins.now }
    ensures buckets { IfOk result AreBuckets }
    ensures rows { IfOk result (λ rows.
        AreRows question.now.grammar.now origins.now (rows_in rows)) }
{
    let _well_formed = question.grammar.rules();
    let mut rows = Buckets::new(alloc, question.grammar.nonterminals())?;
    for origin in origins {
        let bucket = awaited(next_of(question.grammar, origin.item));
        let words = pack(alloc, &origin.set)?;
        let row = Row {
            item: origin.item,
            words,
        };
        rows.add(alloc, bucket, row)?;
    }
    Ok(rows)
}

// Expects a nonterminal, and those with which its rules begin.
fn expect(question: &Question, expected: &mut Vec<u64>, nonterminal: u16) -> Result<(), AllocError>
    requires descents { HasDescents question.now }
    requires nonterminal { nonterminal ≤ question.now.grammar.now.nonterminals }
    requires closed { IsDescendedOf question.now expected.old.items }
    ensures stays { OnOk result (Stays expected.old.items expected.new.items) }
    ensures there { OnOk result (Has expected.new.items nonterminal) }
    ensures closed { OnOk result (IsDescendedOf question.now expected.new.items) }
{
    if stands(expected, nonterminal) {
        return Ok(());
    }
    let descent = &question.tables.descents[nonterminal as usize];
    add_all(expected, descent.as_slice())?;
    Ok(())
}

// Expects the nonterminals that items await.
fn expect_awaited(
    question: &Question,
    expected: &mut Vec<u64>,
    origins: &[Origins],
) -> Result<(), AllocError>
    requires descents { HasDescents question.now }
    requires here { AreHere question.now.grammar.now origins.now }
    requires closed { IsDescendedOf question.now expected.old.items }
    ensures stays { OnOk result (Stays expected.old.items expected.new.items) }
    ensures awaited { OnOk result (AreAwaitedOf question.now origins.now expected.new.items) }
    ensures closed { OnOk result (IsDescendedOf question.now expected.new.items) }
{
    let _well_formed = question.grammar.rules();
    for origin in origins {
        let nonterminal = awaited(next_of(question.grammar, origin.item));
        expect(question, expected, nonterminal)?;
    }
    Ok(())
}

// Which nonterminals' rules may begin at a position where these items stand.
fn expected_of(
    alloc: Global,
    question: &Question,
    origins: &[Origins],
    first: bool,
) -> Result<Vec<u64>, AllocError>
    requires here { AreHere question.now.grammar.now origins.now }
    requires descents { HasDescents question.now }
    ensures first { IfOk result (λ expected. ExpectsStart question.now first expected.items) }
    ensures awaited { IfOk result (λ expected.
        AreAwaitedOf question.now origins.now expected.items) }
    ensures closed { IfOk result (λ expected. IsDescendedOf question.now expected.items) }
{
    let _well_formed = question.grammar.rules();
    let mut expected = Vec::new(alloc);
    if first {
        expect(question, &mut expected, question.grammar.start())?;
    }
    expect_awaited(question, &mut expected, origins)?;
    Ok(expected)
}

// The awaited nonterminal, or 0.
fn awaited(next: Next) -> u16
    ensures { result ≡ bucket_of next }
{
    match next {
        Next::Awaited(Symbol::Nonterminal(nonterminal)) => nonterminal,
        _ => 0,
    }
}

// The position of what was found.
fn settle(
    alloc: Global,
    question: &Question,
    now: &Now,
    first: bool,
) -> Result<Position, AllocError>
    requires now { IsNow question.now.grammar.now now.now }
    requires descents { HasDescents question.now }
    ensures buckets { IfOk result (λ position. AreBuckets position.rows) }
    ensures rows { IfOk result (AreRowsAt question.now now.now) }
    ensures first { IfOk result (λ position.
        ExpectsStart question.now first position.expected.items) }
    ensures awaited { IfOk result (AreAwaitedAt question.now now.now) }
    ensures closed { IfOk result (λ position. IsDescendedOf question.now position.expected.items) }
    ensures spans { IfOk result (λ position. position.spans.items ≡ now.now.spans.items) }
{
    let rows = rows_of(alloc, question, &now.origins)?;
    let expected = expected_of(alloc, question, &now.origins, first)?;
    let spans = now.spans.to_vec(alloc)?;
    Ok(Position {
        rows,
        expected,
        spans,
    })
}

// The token behind a position.
fn token_at(question: &Question, at: usize) -> Option<u16>
    ensures { result ≡ slice_get question.now.tokens.now at }
{
    match question.tokens.get(at) {
        Some(token) => Some(*token),
        None => None,
    }
}

// What is found at the next position by the token before it, in place of what was found at another.
fn begin(
    alloc: Global,
    question: &Question,
    chart: &[Position],
    now: &mut Now,
    guesses: &mut [usize],
) -> Result<(), AllocError>
    requires now { IsNow question.now.grammar.now now.old }
    requires question { IsQuestion question.now.grammar.now question.now.tables.now }
    requires tokens { All (IsNumberOf question.now.grammar.now.tokens) question.now.tokens.now }
    requires length { length question.now.tokens.now ≤ MOST_LENGTH }
    requires guesses { length guesses.old ≡ question.now.tables.now.items }
    requires chart { ArePositions question.now.grammar.now chart.now }
    requires last { length chart.now ≤ length question.now.tokens.now }
    ensures guesses { OnOk result (length guesses.new ≡ question.now.tables.now.items) }
    ensures now { OnOk result (IsNow question.now.grammar.now now.new) }
    ensures before { OnOk result (AreBefore question.now.grammar.now (length chart.now) now.new) }
    ensures passed { OnOk result (ArePassedAt question.now chart.now now.new) }
    ensures scanned { OnOk result (IsScannedAt question.now chart.now now.new) }
    ensures from { OnOk result (IsFromAt question.now chart.now now.new) }
{
    now.clear(question.grammar);
    if chart.is_empty() {
        return Ok(());
    }
    let ahead = token_at(question, chart.len());
    let way = Way { ahead, cause: None };
    scan(alloc, question, chart, now, guesses, way)?;
    Ok(())
}

// Makes the next position.
fn make(
    alloc: Global,
    question: &Question,
    chart: &[Position],
    now: &mut Now,
    guesses: &mut [usize],
) -> Result<Position, AllocError>
    requires now { IsNow question.now.grammar.now now.old }
    requires question { IsQuestion question.now.grammar.now question.now.tables.now }
    requires descents { HasDescents question.now }
    requires tokens { All (IsNumberOf question.now.grammar.now.tokens) question.now.tokens.now }
    requires length { length question.now.tokens.now ≤ MOST_LENGTH }
    requires guesses { length guesses.old ≡ question.now.tables.now.items }
    requires chart { ArePositions question.now.grammar.now chart.now }
    requires last { length chart.now ≤ length question.now.tokens.now }
    ensures now { OnOk result (IsNow question.now.grammar.now now.new) }
    ensures guesses { OnOk result (length guesses.new ≡ question.now.tables.now.items) }
    ensures made { IfOk result (IsMadeAt question.now chart.now) }
{
    begin(alloc, question, chart, now, guesses)?;
    let ahead = token_at(question, chart.len());
    complete(alloc, question, chart, now, guesses, ahead)?;
    let position = settle(alloc, question, now, chart.is_empty())?;
    Ok(position)
}

// The positions before each token, and the last.
fn positions_of(
    alloc: Global,
    question: &Question,
    guesses: &mut [usize],
) -> Result<Vec<Position>, AllocError>
    requires question { IsQuestion question.now.grammar.now question.now.tables.now }
    requires descents { HasDescents question.now }
    requires tokens { All (IsNumberOf question.now.grammar.now.tokens) question.now.tokens.now }
    requires length { length question.now.tokens.now ≤ MOST_LENGTH }
    requires guesses { length guesses.old ≡ question.now.tables.now.items }
    ensures { IfOk result (λ chart. IsChartOf question.now chart.items) }
{
    let many = question.tokens.len() + 1;
    let mut chart: Vec<Position> = Vec::with_capacity(alloc, many)?;
    let mut now = Now::new(alloc, question.grammar)?;
    for _ in 0..many {
        let position = make(alloc, question, &chart, &mut now, guesses)?;
        chart.push(position)?;
    }
    Ok(chart)
}

// The chart of a list of tokens.
pub(crate) fn chart_of(alloc: Global, question: &Question) -> Result<Vec<Position>, AllocError>
    requires question { IsQuestion question.now.grammar.now question.now.tables.now }
    requires descents { HasDescents question.now }
    requires tokens { All (IsNumberOf question.now.grammar.now.tokens) question.now.tokens.now }
    requires length { length question.now.tokens.now ≤ MOST_LENGTH }
    ensures { IfOk result (λ chart. IsChartOf question.now chart.items) }
{
    let mut guesses = vec![in alloc; 0usize; question.tables.items]?;
    let chart = positions_of(alloc, question, &mut guesses)?;
    Ok(chart)
}
