// Which goals sets exclude.

ghost use Rattle.std.specs.Prelude.{◌↔◌, IsTrue};
ghost use Rattle.cs_closed.specs.Closed.Closed.{IsLiveRule, IsUsedRule, Excludes};

use crate::closed::sets::Sets;
use cs_goals::Goal;
use cs_grammar::Grammar;

impl Sets {
    /// Whether the sets exclude the goal: the rule of a rule goal or the outer rule of a context goal isn't live or its left
    /// side isn't reachable, or the inner rule isn't live, or a pair isn't in its line. Where the sets are closed, no tree of
    /// the start symbol meets a goal that they exclude.
    pub fn excludes(&self, grammar: &Grammar, goal: &Goal) -> bool
        ensures { IsTrue result ↔ Excludes grammar.now self.now goal.now }
    {
        match *goal {
            Goal::Rule(rule) => !self.uses_rule(grammar, rule),
            Goal::Context { outer, inner, .. } => {
                !self.uses_rule(grammar, outer) || !self.has_live_rule(grammar, inner)
            }
            Goal::Pair { left, right } => !self.is_next(left, right),
        }
    }

    fn has_live_rule(&self, grammar: &Grammar, number: u16) -> bool
        ensures { IsTrue result ↔ IsLiveRule grammar.now self.now number }
    {
        match grammar.get_rule(number) {
            Some(rule) => self.is_live(rule),
            None => false,
        }
    }

    fn uses_rule(&self, grammar: &Grammar, number: u16) -> bool
        ensures { IsTrue result ↔ IsUsedRule grammar.now self.now number }
    {
        match grammar.get_rule(number) {
            Some(rule) => self.is_used(rule),
            None => false,
        }
    }
}
