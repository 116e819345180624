// Immediate juniors and direct permissions.
ghost use Rattle.std.specs.Prelude.{◌↔◌, ℕ, ◌≤◌, ◌<◌};
ghost use Rattle.std.proofs.Math.Bool.{So};
ghost use Rattle.sets.specs.Held.{set_of};
ghost use Rattle.model.specs.State.{State};
ghost use Rattle.rows.specs.Partway.{Headed, Target};
ghost use Rattle.rows_check.specs.Held.{UpperHeld};

use hierarchy::{juniors_of, permissions_of};
use indexes::Index;
use sets::Set128;
use tables::{JUNIORS, PERMISSIONS, Record, candidate_sets, load};

// Those of role k.
fn upper_matches(rec: &Record, index: &Index, standing: Set128, k: usize) -> bool
    requires k_bound { k < 128 }
    ensures { (st : State) → Target st (set_of standing) index.now → Headed st rec.now → So result ↔ UpperHeld st rec.now k }
{
    let juniors = juniors_of(&index.lower, standing, k);
    if load(rec, JUNIORS + 2 * k) != juniors {
        return false;
    }
    let permissions = permissions_of(candidate_sets(rec), juniors, standing, k);
    load(rec, PERMISSIONS + 4 * k) == permissions
}

// Those of all c candidates.
pub fn uppers_match(rec: &Record, index: &Index, standing: Set128, c: usize) -> bool
    requires c_bound { c ≤ 128 }
    ensures { (st : State) → Target st (set_of standing) index.now → Headed st rec.now → So result ↔ ((k : ℕ) → k < c → UpperHeld st rec.now k) }
{
    (0..c).all(|k| upper_matches(rec, index, standing, k))
}
