// The first pair of a list that stands side by side in no sentence.

ghost use Rattle.std.specs.Prelude.{◌≤◌, [], ◌∷◌, length, All, IfSome};
ghost use Rattle.cs_grammar.specs.Grammar.{IsNumberOf};
ghost use Rattle.cs_grammar.specs.Sentence.{IsSentence, framed};
ghost use Rattle.cs_goals.specs.Goal.{IsLeft, IsRight};
ghost use Rattle.cs_mutate.specs.Poison.{TellsPlace, TellsPair, between};
ghost use Rattle.cs_mutate.specs.Keeping.{TellsBehind};

use cs_grammar::Mark;
use cs_pairs::Pairs;

// A pair that isn't adjacent, with its place, counted from 0.
#[derive(Clone, Copy, Debug)]
pub(crate) struct PoisonedPair {
    pub(crate) at: u32,
    pub(crate) left: Mark,
    pub(crate) right: Mark,
}

/// The place of the first pair of a framed list that isn't adjacent; that of the begin mark and the
/// first token, or the end mark, is 0. None where all are adjacent. Where there is one the list is
/// no sentence.
pub fn poison(pairs: &Pairs, list: &[u16]) -> Option<u32>
    requires tokens { All (IsNumberOf pairs.now.grammar.tokens) list.now }
    requires short { length list.now ≤ 1000001 }
    ensures first { TellsPlace pairs.now.grammar (framed list.now) result }
    ensures outside { IfSome result (λ _. IsSentence pairs.now.grammar list.now → ⊥) }
{
    match poison_between(pairs, Mark::Begin, list, Mark::End) {
        Some(found) => Some(found.at),
        None => None,
    }
}

// The first pair that isn't adjacent of a mark, some tokens and a mark.
pub(crate) fn poison_between(
    pairs: &Pairs,
    left: Mark,
    list: &[u16],
    right: Mark,
) -> Option<PoisonedPair>
    requires left { IsLeft pairs.now.grammar.tokens left }
    requires right { IsRight pairs.now.grammar.tokens right }
    requires tokens { All (IsNumberOf pairs.now.grammar.tokens) list.now }
    requires short { length list.now ≤ 1000001 }
    ensures { TellsPair pairs.now.grammar (between left list.now right) result }
{
    let mut last = left;
    for at in 0..list.len() {
        let next = Mark::Token(list[at]);
        if !pairs.adjacent(last, next) {
            return Some(PoisonedPair {
                at: at as u32,
                left: last,
                right: next,
            });
        }
        last = next;
    }
    if pairs.adjacent(last, right) {
        None
    } else {
        Some(PoisonedPair {
            at: list.len() as u32,
            left: last,
            right,
        })
    }
}

// The same of one token between marks, which most edits put.
fn poison_around(pairs: &Pairs, left: Mark, token: u16, right: Mark) -> Option<PoisonedPair>
    requires left { IsLeft pairs.now.grammar.tokens left }
    requires right { IsRight pairs.now.grammar.tokens right }
    requires token { IsNumberOf pairs.now.grammar.tokens token }
    ensures { TellsPair pairs.now.grammar (between left (token ∷ []) right) result }
{
    let middle = Mark::Token(token);
    if !pairs.adjacent(left, middle) {
        return Some(PoisonedPair {
            at: 0,
            left,
            right: middle,
        });
    }
    if !pairs.adjacent(middle, right) {
        return Some(PoisonedPair {
            at: 1,
            left: middle,
            right,
        });
    }
    None
}

// The same of few tokens.
pub(crate) fn poison_put(
    pairs: &Pairs,
    left: Mark,
    put: &[u16],
    right: Mark,
) -> Option<PoisonedPair>
    requires left { IsLeft pairs.now.grammar.tokens left }
    requires right { IsRight pairs.now.grammar.tokens right }
    requires tokens { All (IsNumberOf pairs.now.grammar.tokens) put.now }
    requires short { length put.now ≤ 1000001 }
    ensures { TellsPair pairs.now.grammar (between left put.now right) result }
{
    match put {
        [token] => poison_around(pairs, left, *token, right),
        _ => poison_between(pairs, left, put, right),
    }
}

// Whether each pair behind the one at a place is adjacent, of a mark, some tokens and a mark. The first of these marks stands in
// no such pair.
pub(crate) fn sound_behind(pairs: &Pairs, list: &[u16], at: usize, right: Mark) -> bool
    requires right { IsRight pairs.now.grammar.tokens right }
    requires tokens { All (IsNumberOf pairs.now.grammar.tokens) list.now }
    requires short { length list.now ≤ 1000001 }
    requires inside { at ≤ length list.now }
    ensures { TellsBehind pairs.now.grammar list.now right at result }
{
    if at == list.len() {
        return true;
    }
    poison_between(pairs, Mark::Token(list[at]), &list[at + 1..], right).is_none()
}
