// The first holders of permissions. All others that hold one contain it: the intersection of two holders is a holder.
ghost use Rattle.std.proofs.Math.Bool.{So};
ghost use Rattle.std.specs.Prelude.{◌↔◌, ◌⊎◌, ℕ, ◌≤◌};
ghost use Rattle.sets.specs.Held.{set_of};
ghost use Rattle.sets.specs.Sets.{has};
ghost use Rattle.sets.specs.Extremes.{LowestItem};
ghost use Rattle.edit_work.specs.Work.{LowestOf};

use indexes::Holders;
use sets::Set128;
use tables::load;

// The set with the lowest item of s in it, where s has one.
fn with_lowest(found: Set128, s: Set128) -> Set128
    ensures { (i : ℕ) → So (has (set_of result) i) ↔ (So (has (set_of found) i) ⊎ LowestItem 128 (set_of s) i) }
{
    match s.lowest() {
        None => found,
        Some(i) => found.insert(i),
    }
}

// The first holders of m permissions.
pub fn first_holders(holders: &Holders, m: usize) -> Set128
    requires { m ≤ 256 }
    ensures { LowestOf m holders.now (set_of result) }
{
    let mut found = Set128::empty();
    for p in 0..m {
        found = with_lowest(found, load(holders, 2 * p));
    }
    found
}
