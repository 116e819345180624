// The samples further up from each: those that have all its roles.
ghost use Rattle.std.proofs.Math.Bool.{So};
ghost use Rattle.std.specs.Prelude.{◌≡◌, ◌↔◌, ℕ};
ghost use Rattle.sets.specs.Held.{set_of};
ghost use Rattle.sets.specs.Sets.{has, subset};
ghost use Rattle.model.specs.Hierarchy.{Roles};
ghost use Rattle.tables.specs.Tables.{HoldsSets};
ghost use Rattle.edit_work.specs.Work.{entries, further, UpAndDown, Sampled, KnownSample};

use crate::work::Work;
use sets::Set128;
use tables::{load, store};

// Those of `all` samples that have all roles of sample i. Whoever holds a role holds what lies within it, so only the highest of those left is asked for.
fn further_from(work: &Work, all: Set128, i: usize) -> Set128
    requires { KnownSample work.now (set_of all) i }
    ensures { (j : ℕ) → So (has (set_of result) j) ↔ (So (has (set_of all) j) × So (subset (entries work.now.samples i) (entries work.now.samples j))) }
{
    let mut found = all;
    let mut rest = load::<2>(&work.samples, 2 * i);
    while let Some(k) = rest.highest() {
        found = found.intersection(load(&work.holding, 2 * k));
        rest = rest.difference(load(&work.down, 2 * k));
    }
    found
}

// Each sample's entry; the rest of the work stays.
pub fn fill_further(work: &mut Work, count: usize)
    requires { (ρ : Roles) × (found : ℕ → ℕ) × UpAndDown ρ work.old × Sampled ρ count found work.old }
    ensures kept { work.new ≡ record work.old { further = work.new.further } }
    ensures filled { HoldsSets 2 count (further count (entries work.old.samples)) work.new.further }
{
    let all = Set128::below(count);
    for i in 0..count {
        let beyond = further_from(work, all, i);
        store(&mut work.further, 2 * i, beyond);
    }
}
