// The row of one role: immediate juniors, direct permissions, direct members. A role that does not stand has an empty row.
ghost use Rattle.std.specs.Prelude.{◌≡◌, ◌^◌, ◌<◌};
ghost use Rattle.sets.specs.Held.{set_of};
ghost use Rattle.model.specs.Hierarchy.{Roles, candidate_count, permission_set, authorised_users, immediate_juniors, direct_permissions, direct_members};
ghost use Rattle.model.specs.Indexes.{lower};
ghost use Rattle.tables.specs.Tables.{HoldsSets};
ghost use Rattle.hierarchy.specs.Tables.{Numbered, Narrow, immediate_seniors};

use crate::sieve::{less, maximal_of};
use sets::{Set128, Set256};
use tables::{Table128, Table256, load};

// Of the standing roles below k, those that lie below no other.
pub fn juniors_of(index: &Table128, standing: Set128, k: usize) -> Set128
    requires k_bound { k < 128 }
    ensures { (ρ : Roles) → Numbered ρ → HoldsSets 2 (candidate_count ρ) (lower ρ) index.now → set_of standing < 2 ^ candidate_count ρ → set_of result ≡ immediate_juniors ρ (set_of standing) k }
{
    if !standing.contains(k) {
        return Set128::empty();
    }
    maximal_of(index, load(index, 2 * k).intersection(standing))
}

// The set of k less those of its immediate juniors.
pub fn permissions_of(sets: &Table256, juniors: Set128, standing: Set128, k: usize) -> Set256
    requires k_bound { k < 128 }
    ensures { (ρ : Roles) → Numbered ρ → Narrow ρ → HoldsSets 4 (candidate_count ρ) (permission_set ρ) sets.now → set_of standing < 2 ^ candidate_count ρ → set_of juniors ≡ immediate_juniors ρ (set_of standing) k → set_of result ≡ direct_permissions ρ (set_of standing) k }
{
    if !standing.contains(k) {
        return Set256::empty();
    }
    less(sets, load(sets, 4 * k), juniors)
}

// The users of k less those of its immediate seniors.
pub fn members_of(users: &Table128, seniors: Set128, standing: Set128, k: usize) -> Set128
    requires k_bound { k < 128 }
    ensures { (ρ : Roles) → Numbered ρ → Narrow ρ → HoldsSets 2 (candidate_count ρ) (authorised_users ρ) users.now → set_of standing < 2 ^ candidate_count ρ → set_of seniors ≡ immediate_seniors ρ (set_of standing) k → set_of result ≡ direct_members ρ (set_of standing) k }
{
    if !standing.contains(k) {
        return Set128::empty();
    }
    less(users, load(users, 2 * k), seniors)
}
