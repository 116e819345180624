// Whether each grant is covered, user by user.
ghost use Rattle.std.specs.Prelude.{◌≡◌, List, ℕ, ◌≤◌, ◌<◌, get_or};
ghost use Rattle.sets.specs.Held.{set_of};
ghost use Rattle.model.specs.Coverage.{all_covered};
ghost use Rattle.model.specs.Lists.{set_at};
ghost use Rattle.model.specs.State.{State, roles_of};
ghost use Rattle.indexes.specs.Index.{LowerRoles, Indexed};
ghost use Rattle.indexes.specs.Tables.{Source, SourceOf};
ghost use Rattle.records.specs.Records.{user_roles, each_grant_covered};

use hierarchy::{less, maximal_of};
use indexes::Index;
use sets::{Set128, Set256, highest_item};
use tables::{CREW, Record, STANDING, Table256, candidate_sets, load};

// Whether the standing roles of a user hold all of the user's row. Where the row itself stands, it has the highest number of them, and nothing else is
// asked. Otherwise those that lie below no other hold all that the rest do.
fn user_covered(sets: &Table256, index: &Index, roles: Set128, row: Set256) -> bool
    ensures { (st : State) (crew : List ℕ) (n c u : ℕ) → Source st crew n sets.now c → LowerRoles (roles_of st) index.now → u < n → set_of row ≡ get_or st.rows u 0 → set_of roles ≡ user_roles st u → result ≡ each_grant_covered st u }
{
    if roles.is_empty() {
        return row.is_empty();
    }
    if load(sets, 4 * highest_item(roles)) == row {
        return true;
    }
    less(sets, row, maximal_of(&index.lower, roles)).is_empty()
}

// Whether those of user u do.
fn grants_covered(rec: &Record, index: &Index, standing: Set128, u: usize) -> bool
    requires u_bound { u < 128 }
    ensures { (st : State) → SourceOf st rec.now → set_of standing ≡ st.standing → Indexed (roles_of st) index.now → u < get_or rec.now 0 0 → result ≡ each_grant_covered st u }
{
    let own = load(&index.roles, 2 * u).intersection(standing);
    let row = load(rec, CREW + 4 * u);
    user_covered(candidate_sets(rec), index, own, row)
}

// Whether the standing roles cover each grant.
pub fn all_covered(rec: &Record, index: &Index) -> bool
    requires rec_bound { get_or rec.now 0 0 ≤ 128 }
    ensures { (st : State) → SourceOf st rec.now → set_at 2 rec.now 4 ≡ st.standing → Indexed (roles_of st) index.now → result ≡ all_covered (roles_of st) st.standing }
{
    let n = rec[0] as usize;
    let standing = load(rec, STANDING);
    (0..n).all(|u| grants_covered(rec, index, standing, u))
}
