// In which rules each nonterminal stands.

ghost use Rattle.std.specs.Prelude.{OnOk, IfOk, All, length};
ghost use Rattle.cs_grammar.specs.Grammar.{IsSymbol};
ghost use Rattle.cs_least.specs.Cost.Users.{HasNoUsers, AddsUser, IsUserTable};

use cs_grammar::{Grammar, Symbol, place_of};
use std::alloc::{AllocError, Global};

// Each list is given room for as many rules at once.
const USUAL_USERS: usize = 16;

// Empty lists, so many.
fn no_users(alloc: Global, many: u16) -> Result<Vec<Vec<u16>>, AllocError>
    ensures { IfOk result (λ users. HasNoUsers many users.items) }
{
    let mut users = Vec::with_capacity(alloc, many as usize)?;
    for _number in 0..many {
        users.push(Vec::with_capacity(alloc, USUAL_USERS)?)?;
    }
    Ok(users)
}

// Adds a rule to the list of each nonterminal of its right side, as often as that stands there.
fn add_user(users: &mut [Vec<u16>], rule: u16, right: &[Symbol]) -> Result<(), AllocError>
    requires { All (IsSymbol 512 (length users.old)) right.now }
    ensures { OnOk result (AddsUser rule right.now users.old users.new) }
{
    for symbol in right {
        if let Symbol::Nonterminal(number) = *symbol {
            users[place_of(number)].push(rule)?;
        }
    }
    Ok(())
}

// For each nonterminal the rules in which it stands, by their indexes, each as often as it stands there.
pub(crate) fn users_of(alloc: Global, grammar: &Grammar) -> Result<Vec<Vec<u16>>, AllocError>
    ensures { IfOk result (λ users. IsUserTable grammar.now users.items) }
{
    let mut users = no_users(alloc, grammar.nonterminals())?;
    for (place, rule) in grammar.rules().iter().enumerate() {
        add_user(&mut users, place as u16, rule.right())?;
    }
    Ok(users)
}
