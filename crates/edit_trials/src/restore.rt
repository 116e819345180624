// A restoration weighed without writing it: the counts that the record would have.
ghost use Rattle.std.specs.Prelude.{◌≡◌, ◌^◌, ◌<◌, take, drop};
ghost use Rattle.sets.specs.Held.{set_of};
ghost use Rattle.sets.specs.Sets.{◌∪◌, single};
ghost use Rattle.model.specs.Hierarchy.{Roles, candidate_count, permission_set};
ghost use Rattle.model.specs.Record.{sets_start, state_of};
ghost use Rattle.model.specs.State.{roles_of};
ghost use Rattle.tables.specs.Tables.{HoldsSets, table256_length};
ghost use Rattle.hierarchy.specs.Tables.{Numbered, Narrow};
ghost use Rattle.indexes.specs.Index.{RoleUsers};
ghost use Rattle.edit_rows.specs.Neighbours.{Neighbours};
ghost use Rattle.quality.specs.Numbers.{counts_in, Few};
ghost use Rattle.edit_trials.specs.Trying.{counted_in, Exact, Restorable, Tried};

use crate::count::{corrected, role_counts};
use crate::lost::lost;
use crate::trial::Trial;
use edit_rows::Links;
use hierarchy::{members_of, permissions_of};
use indexes::Index;
use quality::Counts;
use sets::Set128;
use tables::{Record, STANDING, candidate_sets, load};

// What k would bring: its row, and a link from each senior.
fn gained(rec: &Record, index: &Index, standing: Set128, k: usize, links: Links) -> Counts
    requires k_bound { k < 128 }
    ensures few { Few result }
    ensures result_value { (ρ : Roles) → Numbered ρ → Narrow ρ → HoldsSets 4 (candidate_count ρ) (permission_set ρ) (take table256_length (drop sets_start rec.now)) → RoleUsers ρ index.now → set_of standing < 2 ^ candidate_count ρ → Neighbours ρ (set_of standing) k (set_of links.above) (set_of links.below) → counts_in result ≡ counted_in ρ (set_of standing) k }
{
    let members = members_of(&index.users, links.above, standing, k);
    let permissions = permissions_of(candidate_sets(rec), links.below, standing, k);
    role_counts(members, permissions, links)
}

// What putting the absent candidate k back would do to the counts q. Only the rows of its neighbours lose anything, and only to k.
pub fn if_restored(rec: &Record, index: &Index, q: Counts, k: usize) -> Trial
    requires restorable { Restorable (state_of rec.now) rec.now index.now k }
    requires exact { Exact rec.now q }
    requires k_bound { k < 128 }
    ensures { Tried (roles_of (state_of rec.now)) ((state_of rec.now).standing ∪ single k) ((state_of rec.now).standing ∪ single k) k result }
{
    let standing = load(rec, STANDING).insert(k);
    let links = Links::among(index, standing, k);
    let given = lost(rec, index, k, links);
    let brought = gained(rec, index, standing, k, links);
    Trial {
        counts: corrected(q, given, brought),
        links,
    }
}
