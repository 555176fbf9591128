// The first case of each goal that was met.

ghost use Rattle.std.specs.Prelude.{◌≡◌, ◌+◌, ◌*◌, ◌<◌, [], ◌∷◌, OnOk, OnErr, length, take};
ghost use Rattle.std.specs.Bool.{OnTrue};
ghost use Rattle.cs_goals.specs.declared.goal.Goal.TheVariants.{Pair, Rule};
ghost use Rattle.cs_verdicts.specs.Cases.Table.{AreAllAdded, AreRuled, IsAdded, IsFound, IsGrown, IsRuled, goals_of};
ghost use Rattle.cs_verdicts.specs.Cases.Firsts.{IsRecent, IsSmall, key_of, mark_key};
ghost use Rattle.cs_verdicts.specs.Cases.KeyHash.{hash_number, mark_number};

use cs_goals::{Goal, Occurrence};
use cs_grammar::Mark;
use indexmap::IndexMap;
use std::alloc::{AllocError, Global};
use std::hash::{Hash, Hasher};
use std::marker::Model;

// So many slots for goals that came lately: a power of 2.
const SLOTS: usize = 8_192;

// Multiplicative hashing (Knuth, The Art of Computer Programming 3, 6.4), by a number of MurmurHash3.
const SPREAD: u64 = 18_397_679_294_719_823_053;

// How far a spread number is moved, so that it is below SLOTS.
const SHIFT: u32 = 51;

// A goal that can be hashed.
#[derive(Clone, Copy, PartialEq, Eq)]
pub(crate) enum Key {
    Rule(u16),
    Context { outer: u16, place: u16, inner: u16 },
    Pair { left: MarkKey, right: MarkKey },
}

#[derive(Clone, Copy, PartialEq, Eq)]
pub(crate) enum MarkKey {
    Begin,
    Token(u16),
    End,
}

// In one write, where the derived one would make a write for each part.
impl Hash for Key {
    ghost use Rattle.cs_verdicts.specs.Cases.KeyHash.{equal_writes, writes_of};

    ghost hash_input = { writes_of };

    ghost respects_eq = { equal_writes };

    fn hash<H: Hasher>(&self, state: &mut H) {
        state.write_u64(hash_number(*self));
    }
}

// A number that no other goal has.
fn hash_number(key: Key) -> u64
    ensures { result ≡ hash_number key }
{
    match key {
        Key::Rule(rule) => 65_536 + rule as u64,
        Key::Context {
            outer,
            place,
            inner,
        } => ((65_536 + outer as u64) * 65_536 + place as u64) * 65_536 + inner as u64,
        Key::Pair { left, right } => {
            (131_072 + mark_number(left) as u64) * 131_072 + mark_number(right) as u64
        }
    }
}

fn mark_number(mark: MarkKey) -> u32
    ensures number { result ≡ mark_number mark }
    ensures small { result < 131072 }
{
    match mark {
        MarkKey::Begin => 65_536,
        MarkKey::Token(token) => token as u32,
        MarkKey::End => 65_537,
    }
}

fn mark_key(mark: Mark) -> MarkKey
    ensures { result ≡ mark_key mark }
{
    match mark {
        Mark::Begin => MarkKey::Begin,
        Mark::Token(token) => MarkKey::Token(token),
        Mark::End => MarkKey::End,
    }
}

fn key_of(goal: Goal) -> Key
    ensures { result ≡ key_of goal }
{
    match goal {
        Goal::Rule(rule) => Key::Rule(rule),
        Goal::Context {
            outer,
            place,
            inner,
        } => Key::Context {
            outer,
            place,
            inner,
        },
        Goal::Pair { left, right } => Key::Pair {
            left: mark_key(left),
            right: mark_key(right),
        },
    }
}

// The number of a goal, which no other has.
fn goal_number(goal: Goal) -> u64
    ensures number { result ≡ hash_number (key_of goal) }
    ensures small { IsSmall (key_of goal) }
    ensures some { 0 < result }
{
    hash_number(key_of(goal))
}

// The slot of a goal. Any would do: it says where to look first.
fn slot_of(number: u64) -> usize {
    (number.wrapping_mul(SPREAD) >> SHIFT) as usize
}

// Goals, each with the number of a case. Trees share most of what they meet, so most goals that come are known: for each slot
// `recent` has the number of the last goal with this slot, which is in the table, so that one look tells of most goals that
// they are. No goal has number 0, which stands in the other slots. With a context the table has the rule that it shows, so
// that a context which is known tells of its rule too.
#[derive(Drop)]
pub(crate) struct Firsts {
    table: IndexMap<Key, u64>,
    recent: Vec<u64>,
}

impl Model for Firsts {
    ghost use Rattle.std.specs.Prelude.{List, ℕ};
    ghost use Rattle.cs_goals.specs.declared.goal.Goal.{Goal};
    ghost use Rattle.cs_verdicts.specs.Cases.Firsts.{firsts_in, AreFirsts};

    ghost Value = { List (Goal × ℕ) };

    ghost view = { λ f. firsts_in f.table.entries };

    ghost invariant = { λ f. AreFirsts (firsts_in f.table.entries) f.recent.items };
}

impl Firsts {
    pub(crate) fn new(alloc: Global) -> Firsts
        ensures { result ≡ [] }
    {
        Firsts {
            table: IndexMap::new(alloc),
            recent: Vec::new(alloc),
        }
    }

    pub(crate) fn len(&self) -> usize
        ensures len { result ≡ length self.now }
        ensures ruled { AreRuled self.now }
    {
        self.table.len()
    }

    // Keeps the first so many, and no slot, since the goal of one may be gone.
    pub(crate) fn truncate(&mut self, len: usize)
        requires { AreRuled (take len self.old) }
        ensures { self.new ≡ take len self.old }
    {
        self.recent.clear();
        self.table.truncate(len);
    }

    // The number of a goal.
    pub(crate) fn get(&self, goal: &Goal) -> Option<u64>
        ensures { IsFound self.now goal.now result }
    {
        self.table.get(&key_of(*goal)).copied()
    }

    // Makes the slots, where there are none.
    pub(crate) fn make_slots(&mut self) -> Result<(), AllocError>
        ensures { self.new ≡ self.old }
    {
        if self.recent.is_empty() {
            self.recent.resize(SLOTS, 0)?;
        }
        Ok(())
    }

    // Adds a rule where it has no number.
    pub(crate) fn add_rule(&mut self, rule: u16, case: u64) -> Result<(), AllocError>
        ensures added { OnOk result (AreAllAdded self.old (Rule rule ∷ []) case self.new) }
        ensures grown { IsGrown self.old self.new }
    {
        self.add(Goal::Rule(rule), case)
    }

    // Adds a context and the rule that it shows, where they have no number.
    pub(crate) fn add_context(
        &mut self,
        occurrence: Occurrence,
        case: u64,
    ) -> Result<(), AllocError>
        ensures added { OnOk result
            (AreAllAdded self.old (goals_of occurrence) case self.new) }
        ensures grown { IsGrown self.old self.new }
    {
        let goal = Goal::Context {
            outer: occurrence.outer,
            place: occurrence.place,
            inner: occurrence.inner,
        };
        let number = goal_number(goal);
        if self.is_recent(number) {
            return Ok(());
        }
        self.add(Goal::Rule(occurrence.inner), case)?;
        self.put(goal, case)?;
        self.keep_recent(number);
        Ok(())
    }

    // Adds a pair where it has no number.
    pub(crate) fn add_pair(&mut self, left: Mark, right: Mark, case: u64) -> Result<(), AllocError>
        ensures added { OnOk result (AreAllAdded self.old (Pair left right ∷ []) case self.new) }
        ensures grown { IsGrown self.old self.new }
    {
        self.add(Goal::Pair { left, right }, case)
    }

    // Adds a goal where it has no number.
    #[inline(always)]
    fn add(&mut self, goal: Goal, case: u64) -> Result<(), AllocError>
        requires { IsRuled self.old goal }
        ensures added { OnOk result (AreAllAdded self.old (goal ∷ []) case self.new) }
        ensures grown { IsGrown self.old self.new }
    {
        let number = goal_number(goal);
        if self.is_recent(number) {
            return Ok(());
        }
        self.put(goal, case)?;
        self.keep_recent(number);
        Ok(())
    }

    // Adds a goal where it has no number, by a search of the whole table. Most goals don't come here.
    #[inline(never)]
    fn put(&mut self, goal: Goal, case: u64) -> Result<(), AllocError>
        requires { IsRuled self.old goal }
        ensures added { OnOk result (IsAdded self.old goal case self.new) }
        ensures refused { OnErr result (self.new ≡ self.old) }
    {
        let key = key_of(goal);
        if self.table.contains_key(&key) {
            return Ok(());
        }
        self.table.insert(key, case)?;
        Ok(())
    }

    // Whether its slot has the goal of this number.
    fn is_recent(&self, number: u64) -> bool
        requires { 0 < number }
        ensures recent { OnTrue result (IsRecent self.now number) }
        ensures ruled { AreRuled self.now }
    {
        match self.recent.get(slot_of(number)) {
            Some(known) => *known == number,
            None => false,
        }
    }

    // The slot has this goal from now on.
    fn keep_recent(&mut self, number: u64)
        requires { IsRecent self.old number }
        ensures { self.new ≡ self.old }
    {
        if let Some(recent) = self.recent.get_mut(slot_of(number)) {
            *recent = number;
        }
    }
}
