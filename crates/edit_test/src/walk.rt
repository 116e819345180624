// The walk over users and permissions that looks for a grant left bare.
ghost use Rattle.std.specs.Prelude.{◌≡◌, ◌*◌, ◌^◌, ◌<◌, eqb};
ghost use Rattle.sets.specs.Held.{set_of};
ghost use Rattle.sets.specs.Sets.{◌∩◌, ◌∖◌};
ghost use Rattle.sets.specs.Truth.{isnt};
ghost use Rattle.model.specs.Lists.{set_at};
ghost use Rattle.model.specs.Hierarchy.{Roles};
ghost use Rattle.edit_test.specs.Covering.{user_covered, grants_covered, Asked};

use indexes::Index;
use sets::{Set128, Set256};
use tables::{CREW, Record, STANDING, load};

// Whether one of these roles holds permission p.
fn one_holds(index: &Index, roles: Set128, p: usize) -> bool
    requires p_bound { p < 256 }
    ensures { result ≡ isnt (eqb (set_of roles ∩ set_at 2 index.now.holders (2 * p)) 0) }
{
    !roles.intersection(load(&index.holders, 2 * p)).is_empty()
}

// Whether each grant of user u to these permissions is covered by one of these roles.
fn user_covered(rec: &Record, index: &Index, roles: Set128, permissions: Set256, u: usize) -> bool
    requires u_bound { u < 128 }
    ensures { (ρ : Roles) → Asked ρ rec.now index.now (set_of permissions) → u < ρ.users → result ≡ user_covered ρ (set_of roles) (set_of permissions) u }
{
    let own = load(&index.roles, 2 * u).intersection(roles);
    let asked = permissions.intersection(load(rec, CREW + 4 * u));
    asked.items().all(|p| one_holds(index, own, p))
}

// Whether each grant of these users to these permissions is covered by a standing role that is not among those left out.
pub fn grants_covered(
    rec: &Record,
    index: &Index,
    without: Set128,
    users: Set128,
    permissions: Set256,
) -> bool
    ensures { (ρ : Roles) → Asked ρ rec.now index.now (set_of permissions) → set_of users < 2 ^ ρ.users → result ≡ grants_covered ρ (set_at 2 rec.now 4 ∖ set_of without) (set_of users) (set_of permissions) }
{
    let others = load(rec, STANDING).difference(without);
    users
        .items()
        .all(|u| user_covered(rec, index, others, permissions, u))
}
