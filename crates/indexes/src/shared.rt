// Which roles lie below a role that is nobody's row. It is the intersection of the rows that contain it, so they are those that the users of these
// rows share.
ghost use Rattle.std.specs.Prelude.{◌≡◌, ◌≤◌};
ghost use Rattle.sets.specs.Held.{set_of};
ghost use Rattle.model.specs.Hierarchy.{candidate_count, authorised_users};
ghost use Rattle.model.specs.Indexes.{lower, roles_of_user};
ghost use Rattle.model.specs.State.{State, roles_of};
ghost use Rattle.model.specs.Record.{Limits};
ghost use Rattle.tables.specs.Tables.{HoldsSets};
ghost use Rattle.indexes.specs.Tables.{Owned, shared_by};

use crate::own::Own;
use sets::Set128;
use tables::{Table128, load, store};

// The roles that all of these users have.
fn shared(roles: &Table128, users: Set128) -> Set128
    ensures { set_of result ≡ shared_by roles.now (set_of users) }
{
    let mut left = Set128::below(128);
    for u in users.items() {
        left = left.intersection(load(roles, 2 * u));
    }
    left
}

// The entries of the roles that are nobody's row. One user for each row is asked.
pub fn fill_shared(roles: &Table128, users: &Table128, own: Own, c: usize, low: &mut Table128)
    requires { c ≤ 128 }
    ensures { (st : State) → Limits st → candidate_count (roles_of st) ≡ c → HoldsSets 2 st.users (roles_of_user (roles_of st)) roles.now → HoldsSets 2 c (authorised_users (roles_of st)) users.now → Owned st st.users low.old (set_of own.roles) (set_of own.users) → HoldsSets 2 c (lower (roles_of st)) low.new }
{
    let known = own.roles;
    let some = own.users;
    for k in Set128::below(c).difference(known).items() {
        let asked = load(users, 2 * k).intersection(some);
        store(low, 2 * k, shared(roles, asked).remove(k));
    }
}
