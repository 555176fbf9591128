// What the least contexts of a grammar's nonterminals cost, and the chosen ones.

ghost use Rattle.std.specs.Prelude.{◌≡◌, IfOk, OnOk, All};
ghost use Rattle.cs_grammar.specs.Grammar.{IsNumberOf};
ghost use Rattle.cs_least.specs.Embed.Around.{IsContextCost, HasLeastContext, IsChosenAround, FillsEach};
ghost use Rattle.cs_least.specs.Embed.Kept.{AreTablesOf, IsSmallIn, IsSmallPlace, LeadsOut, WritesLead};

use crate::cost::{Cost, Costs};
use crate::embed::context::Context;
use crate::embed::inwards::RulePlace;
use crate::embed::table::{Tables, tables_of, told_cost};
use cs_grammar::{Derivation, Grammar, place_of};
use std::alloc::{AllocError, Global};
use std::marker::Model;

// Room for as many places, and for as many rule numbers, is made at once.
const USUAL_PLACES: usize = 16;

const USUAL_RULES: usize = 32;

/// What the least context of each nonterminal of a grammar costs, and which context is chosen: least contexts over the least
/// trees that they are made of.
#[derive(Debug, Drop)]
pub struct Embeds<'g> {
    costs: Costs<'g>,
    tables: Tables,
}

impl<'g> Model for Embeds<'g> {
    ghost use Rattle.cs_grammar.specs.Weights.{Weighed};
    ghost use Rattle.cs_least.specs.Embed.Kept.{AreTablesOf};

    ghost Value = { Weighed };

    ghost view = { λ e. e.costs };

    ghost invariant = { λ e. AreTablesOf e.costs e.tables };
}

impl<'g> Embeds<'g> {
    /// The contexts of the grammar whose trees cost this. The costs are kept with them.
    pub fn new(alloc: Global, costs: Costs<'g>) -> Result<Embeds<'g>, AllocError>
        ensures { IfOk result (λ embeds. embeds ≡ costs.entry) }
    {
        let tables = tables_of(alloc, &costs)?;
        Ok(Embeds { costs, tables })
    }

    /// What the least trees cost, and which trees are chosen.
    pub fn costs(&self) -> &Costs<'g>
        ensures { result.now ≡ self.now }
    {
        &self.costs
    }

    /// The grammar that these are the contexts of.
    pub fn grammar(&self) -> &'g Grammar
        ensures { result.now ≡ self.now.grammar }
    {
        self.costs.grammar()
    }

    /// What the tables were made with.
    pub fn allocator(&self) -> Global {
        *self.tables.reaches.allocator()
    }

    /// What the least context of a nonterminal costs: `Never` where it has none, `Large` where each of its contexts is
    /// larger than the limit, else the least size, the hole not counted. A context is a tree of the start symbol with a
    /// hole; the start symbol's is the hole alone and costs 0. A nonterminal may have contexts and no tree.
    pub fn embed(&self, nonterminal: u16) -> Cost
        requires { IsNumberOf self.now.grammar.nonterminals nonterminal }
        ensures { IsContextCost self.now nonterminal result }
    {
        told_cost(self.tables.reaches[place_of(nonterminal)])
    }

    /// The chosen context of a nonterminal whose least context is within the limit: a least one, whose hole stands under
    /// the lowest rule, at its lowest place, among chosen trees, in the chosen context of the rule's left side. The code of
    /// any tree of the nonterminal, put between the two lists, is the code of a tree of the start symbol, whose size is that
    /// of both together.
    pub fn around(&self, nonterminal: u16) -> Result<Context, AllocError>
        requires nonterminal { IsNumberOf self.now.grammar.nonterminals nonterminal }
        requires least { HasLeastContext self.now.weights self.now.grammar nonterminal }
        ensures chosen { IfOk result (IsChosenAround self.now nonterminal) }
        ensures filled { IfOk result (FillsEach self.now nonterminal) }
    {
        let alloc = self.allocator();
        let Outward { mut places, after } = lead_out(
            alloc,
            &self.costs,
            &self.tables,
            nonterminal,
        )?;
        let mut before = Derivation::with_capacity(alloc, USUAL_RULES)?;
        write_lead(&self.costs, &mut places, &mut before)?;
        Ok(Context {
            before: before.into_rules(),
            after: after.into_rules(),
        })
    }
}

// The places of holes from the innermost outwards, and the rule numbers behind the innermost.
#[derive(Debug, Drop)]
struct Outward {
    places: Vec<RulePlace>,
    after: Derivation,
}

// Leads from a nonterminal out to the start symbol, whose chosen context takes no step.
fn lead_out(
    alloc: Global,
    costs: &Costs,
    tables: &Tables,
    nonterminal: u16,
) -> Result<Outward, AllocError>
    requires tables { AreTablesOf costs.now tables.now }
    requires nonterminal { IsNumberOf costs.now.grammar.nonterminals nonterminal }
    requires small { IsSmallIn costs.now tables.now nonterminal }
    ensures { IfOk result (LeadsOut costs.now nonterminal) }
{
    let grammar = costs.grammar();
    let mut places = Vec::with_capacity(alloc, USUAL_PLACES)?;
    let mut after = Derivation::with_capacity(alloc, USUAL_PLACES)?;
    let mut at = nonterminal;
    while let Some(first) = tables.firsts[place_of(at)] {
        let place = tables.places[first];
        places.push(place)?;
        let rule = grammar.rule(place.rule);
        costs.all_into(&rule.right()[place.place as usize + 1..], &mut after)?;
        at = rule.left();
    }
    Ok(Outward { places, after })
}

// Writes the rule numbers that stand before a hole, from its outermost place to its innermost: each place's rule, and the
// chosen trees of the symbols before the place.
fn write_lead(
    costs: &Costs,
    places: &mut Vec<RulePlace>,
    into: &mut Derivation,
) -> Result<(), AllocError>
    requires { All (IsSmallPlace costs.now.weights costs.now.grammar) places.old.items }
    ensures { OnOk result (WritesLead costs.now places.old into.old into.new) }
{
    let grammar = costs.grammar();
    while let Some(place) = places.pop() {
        let right = grammar.rule(place.rule).right();
        into.push(place.rule)?;
        costs.all_into(&right[..place.place as usize], into)?;
    }
    Ok(())
}
