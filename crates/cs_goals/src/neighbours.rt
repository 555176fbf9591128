// The pairs in a list of tokens.

ghost use Rattle.std.specs.Prelude.{◌≡◌, ◌↔◌, IsTrue};
ghost use Rattle.cs_grammar.specs.Sentence.{framed, IsFollowed};

use cs_grammar::Mark;

fn same_mark(first: Mark, second: Mark) -> bool
    ensures { IsTrue result ↔ (first ≡ second) }
{
    first == second
}

// Whether one mark is directly followed by another in the framed list.
pub(crate) fn has_pair(tokens: &[u16], left: Mark, right: Mark) -> bool
    ensures { IsTrue result ↔ IsFollowed left right (framed tokens.now) }
{
    let mut last = Mark::Begin;
    for token in tokens {
        let next = Mark::Token(*token);
        if same_mark(last, left) && same_mark(next, right) {
            return true;
        }
        last = next;
    }
    same_mark(last, left) && same_mark(Mark::End, right)
}
