// The longest match at a place, and the first rule that has it.

ghost use Rattle.std.specs.Prelude.{◌≤◌, length, drop};
ghost use Rattle.cs_scanner.specs.Automaton.Machine.{patterns_of};
ghost use Rattle.cs_scanner.specs.Scan.Scan.{IsLongest};

use crate::automaton::Automaton;

/// The longest match of at least one byte at the front of the text: its rule and its size.
pub(crate) fn longest_front(automaton: &Automaton<'_>, text: &[u8]) -> Option<(u16, usize)>
    ensures { IsLongest (patterns_of automaton.now) text.now result }
{
    let mut state = automaton.start();
    let mut best = None;
    for i in 0..text.len() {
        let Some(next) = automaton.step(state, text[i]) else {
            return best;
        };
        state = next;
        if let Some(rule) = automaton.first_rule(state) {
            best = Some((rule, i + 1));
        }
    }
    best
}

/// The greatest size of at least 1 byte at which some rule matches the text from the place on, and the lowest such rule (POSIX
/// lex). None where no rule matches a byte there. It takes no memory.
pub fn longest(automaton: &Automaton<'_>, text: &[u8], at: usize) -> Option<(u16, usize)>
    requires place { at ≤ length text.now }
    ensures answer { IsLongest (patterns_of automaton.now) (drop at text.now) result }
{
    longest_front(automaton, &text[at..])
}
