// The law of the bases of entries.

ghost use Rattle.std.specs.Prelude.{◌≡◌, ℕ, List, []};
ghost use Rattle.cs_writing.specs.Bases.Bases.{TakesFree, PassesOthers, bases_of, no_bases};
ghost use Rattle.cs_manifest.specs.Manifest.Manifest.{GoalEntry};

/// The bases of the entries of goals come by offers: of no entry there are none, and where one more
/// entry comes, its tokens are taken if it is feasible and they are free, and else the bases stay.
pub fn bases_come_by_offers()
    ensures none { (most : ℕ) → bases_of most [] ≡ no_bases most }
    ensures free { (most : ℕ) (entries : List GoalEntry) → TakesFree most entries }
    ensures others { (most : ℕ) (entries : List GoalEntry) → PassesOthers most entries }
{}
