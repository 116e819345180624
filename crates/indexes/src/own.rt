// Which roles hold a user: "u is in A(k)" exactly when k is the role that equals the user's row, or lies below it. So there is one search to a
// user, and the table's sets are asked once for each row that users have.
ghost use Rattle.std.specs.Prelude.{◌≡◌, List, ℕ, ◌+◌, ◌≤◌, ◌<◌, length, get_or};
ghost use Rattle.std.proofs.Math.Bool.{So};
ghost use Rattle.sets.specs.Held.{set_of};
ghost use Rattle.sets.specs.Sets.{has};
ghost use Rattle.model.specs.Lists.{rows_at};
ghost use Rattle.model.specs.Hierarchy.{permission_set};
ghost use Rattle.model.specs.Indexes.{roles_of_user};
ghost use Rattle.model.specs.State.{State, roles_of};
ghost use Rattle.model.specs.Candidates.{Growing};
ghost use Rattle.tables.specs.Rows.{rows_of};
ghost use Rattle.tables.specs.Tables.{Filled};
ghost use Rattle.indexes.specs.Tables.{Source, Owned};

use hierarchy::lower_of;
use sets::{Set128, Set256};
use tables::{Table128, Table256, as_rows, load, search, store};

// The own roles met so far: those that are some user's row, and one such user for each of them.
#[derive(Clone, Copy)]
pub struct Own {
    pub roles: Set128,
    pub users: Set128,
}

// A user's roles, and the own roles with the user's among them.
#[derive(Clone, Copy)]
struct Learned {
    own: Own,
    roles: Set128,
}

// Learns that e is the own role of user u. The roles below it are looked for when it is met first.
fn learn(sets: &Table256, low: &mut Table128, own: Own, e: usize, u: usize) -> Own
    requires e_bound { e < 128 }
    requires u_bound { u < 128 }
    ensures { (st : State) (crew : List ℕ) (n c i : ℕ) → Source st crew n sets.now c → e < c → u < n → permission_set (roles_of st) e ≡ get_or st.rows u 0 → Owned st i low.old (set_of own.roles) (set_of own.users) → Owned st i low.new (set_of result.roles) (set_of result.users) × So (has (set_of result.roles) e) }
{
    let roles = own.roles;
    let users = own.users;
    if roles.contains(e) {
        return own;
    }
    store(low, 2 * e, lower_of(sets, e));
    Own {
        roles: roles.insert(e),
        users: users.insert(u),
    }
}

// The roles of user u, whose row this is.
fn own_roles(
    sets: &Table256,
    c: usize,
    low: &mut Table128,
    own: Own,
    row: Set256,
    u: usize,
) -> Learned
    requires { (c ≤ 128) × Growing (rows_at c sets.now 0) × (u < 128) }
    ensures { (st : State) (crew : List ℕ) (n : ℕ) → Source st crew n sets.now c → u < n → set_of row ≡ get_or st.rows u 0 → Owned st u low.old (set_of own.roles) (set_of own.users) → Owned st (u + 1) low.new (set_of result.own.roles) (set_of result.own.users) × (set_of result.roles ≡ roles_of_user (roles_of st) u) }
{
    let Ok(e) = search(as_rows(sets, 0, c), row) else {
        let roles = Set128::empty();
        return Learned { own, roles };
    };
    let own = learn(sets, low, own, e, u);
    let roles = load(low, 2 * e).insert(e);
    Learned { own, roles }
}

// The roles of each user, by the users' rows; and the own roles, with their entries in `low`.
pub fn fill_roles(
    rows: &[[u64; 4]],
    sets: &Table256,
    c: usize,
    low: &mut Table128,
    out: &mut Table128,
) -> Own
    requires { (length rows.now ≤ 128) × (c ≤ 128) × Growing (rows_at c sets.now 0) }
    ensures { (st : State) → Source st (rows_of rows.now) (length rows.now) sets.now c → Owned st (length rows.now) low.new (set_of result.roles) (set_of result.users) × Filled 2 (length rows.now) (roles_of_user (roles_of st)) out.old out.new }
{
    let mut own = Own {
        roles: Set128::empty(),
        users: Set128::empty(),
    };
    for (u, row) in rows.iter().enumerate() {
        let turn = own_roles(sets, c, low, own, Set256::from_words(*row), u);
        own = turn.own;
        store(out, 2 * u, turn.roles);
    }
    own
}
