// Codes as the keys of a table.

ghost use Rattle.std.specs.Prelude.{◌≡◌, IfOk};
ghost use Rattle.cs_verdicts.specs.Cases.CodeHash.{hash_code};

use cs_grammar::Derivation;
use std::alloc::{AllocError, Global};
use std::hash::{Hash, Hasher};

// The multiplier of MMIX (Knuth, The Art of Computer Programming 2, 3.3.4).
const MULTIPLIER: u64 = 6_364_136_223_846_793_005;

// The rule numbers of a derivation.
#[derive(PartialEq, Eq, Drop)]
pub(crate) struct Code {
    rules: Vec<u16>,
}

impl Code {
    pub(crate) fn of(alloc: Global, derivation: &Derivation) -> Result<Code, AllocError>
        ensures { IfOk result (λ code. code.rules.items ≡ derivation.now) }
    {
        let rules = Vec::from_slice(alloc, derivation.rules())?;
        Ok(Code { rules })
    }
}

// In one write, where the derived one would make a write for each rule.
impl Hash for Code {
    ghost use Rattle.cs_verdicts.specs.Cases.CodeHash.{equal_writes, writes_of};

    ghost hash_input = { writes_of };

    ghost respects_eq = { equal_writes };

    fn hash<H: Hasher>(&self, state: &mut H) {
        state.write_u64(hash_code(&self.rules));
    }
}

// The numbers as the digits of one, of which 64 bits are kept.
fn hash_code(rules: &[u16]) -> u64
    ensures { result ≡ hash_code rules.now }
{
    let mut hash: u64 = 0;
    for rule in rules {
        hash = hash.wrapping_mul(MULTIPLIER).wrapping_add(*rule as u64);
    }
    hash
}
