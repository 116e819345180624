// A strike weighed without writing it: the counts that the record would have.
ghost use Rattle.std.specs.Prelude.{◌<◌};
ghost use Rattle.std.proofs.Math.Bool.{So};
ghost use Rattle.sets.specs.Sets.{has, ◌∖◌, single};
ghost use Rattle.model.specs.Record.{state_of};
ghost use Rattle.model.specs.State.{roles_of};
ghost use Rattle.rows.specs.Linked.{Ready};
ghost use Rattle.edit_trials.specs.Trying.{Exact, Tried};

use crate::count::{corrected, role_counts};
use crate::taken::taken;
use crate::trial::Trial;
use edit_rows::Links;
use indexes::Index;
use quality::Counts;
use tables::{MEMBERS, PERMISSIONS, Record, Table128, load};

// What taking the standing role k out would do to the counts q. Its row goes, and its neighbours take over what no other neighbour of theirs has.
pub fn if_struck(rec: &Record, index: &Index, seniors: &Table128, q: Counts, k: usize) -> Trial
    requires ready { Ready (state_of rec.now) rec.now index.now seniors.now }
    requires exact { Exact rec.now q }
    requires so { So (has (state_of rec.now).standing k) }
    requires k_bound { k < 128 }
    ensures { Tried (roles_of (state_of rec.now)) (state_of rec.now).standing ((state_of rec.now).standing ∖ single k) k result }
{
    let links = Links::read(rec, seniors, k);
    let members = load(rec, MEMBERS + 2 * k);
    let permissions = load(rec, PERMISSIONS + 4 * k);
    let had = role_counts(members, permissions, links);
    let given = taken(rec, index, seniors, k, links);
    Trial {
        counts: corrected(q, had, given),
        links,
    }
}
