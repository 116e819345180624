// A role taken out, and put back.
ghost use Rattle.std.specs.Prelude.{◌≡◌, false, ◌^◌, ◌<◌, eqb};
ghost use Rattle.std.proofs.Math.Bool.{So};
ghost use Rattle.sets.specs.Held.{set_of};
ghost use Rattle.sets.specs.Sets.{has, ◌∪◌, ◌∖◌, single};
ghost use Rattle.sets.specs.Truth.{when◌then◌else◌};
ghost use Rattle.model.specs.Hierarchy.{candidate_count};
ghost use Rattle.model.specs.State.{State, roles_of, standing_now};
ghost use Rattle.rows.specs.Linked.{Ready};
ghost use Rattle.rows.specs.Partway.{Differ};
ghost use Rattle.edit_rows.specs.Neighbours.{Neighbours};

use crate::links::Links;
use indexes::Index;
use rows::{relink_uppers, rewrite_lowers};
use sets::{Set, Set128};
use tables::{MEMBERS, Record, STANDING, Table128, load, store};

// Brings the record to the standing set `standing`, where upper rows differ at most for the roles in `uppers`, and lower rows for those in `lowers`.
fn change_standing(
    rec: &mut Record,
    index: &Index,
    seniors: &mut Table128,
    standing: Set128,
    uppers: Set128,
    lowers: Set128,
)
    ensures { (st : State) → Ready st rec.old index.now seniors.old → set_of standing < 2 ^ candidate_count (roles_of st) → Differ (roles_of st) st.standing (set_of standing) (set_of uppers) (set_of lowers) → Ready (standing_now st (set_of standing)) rec.new index.now seniors.new }
{
    store(rec, STANDING, standing);
    relink_uppers(rec, index, seniors, standing, uppers);
    rewrite_lowers(rec, index, seniors, standing, lowers);
}

// Of these neighbours of a role those that a strike of it can give something of `own`: all of them, or none where it has nothing.
pub fn heirs<const WORDS: usize>(own: Set<WORDS>, neighbours: Set128) -> Set128
    ensures { set_of result ≡ (when eqb (set_of own.entry) 0 then 0 else set_of neighbours) }
{
    if own.is_empty() {
        return Set128::empty();
    }
    neighbours
}

// Takes the standing role k out, whose links are these.
pub fn take_out_at(rec: &mut Record, index: &Index, seniors: &mut Table128, k: usize, links: Links)
    requires k_bound { k < 128 }
    ensures { (st : State) → Ready st rec.old index.now seniors.old → So (has st.standing k) → Neighbours (roles_of st) st.standing k (set_of links.above) (set_of links.below) → Ready (standing_now st (st.standing ∖ single k)) rec.new index.now seniors.new }
{
    let left = load(rec, STANDING).remove(k);
    let lowers = heirs(load::<2>(rec, MEMBERS + 2 * k), links.below);
    change_standing(
        rec,
        index,
        seniors,
        left,
        links.above.insert(k),
        lowers.insert(k),
    );
}

// Takes the standing role k out. Its links are those of the building in which it stands, so they are read before anything is written.
pub fn take_out(rec: &mut Record, index: &Index, seniors: &mut Table128, k: usize)
    requires k_bound { k < 128 }
    ensures { (st : State) → Ready st rec.old index.now seniors.old → So (has st.standing k) → Ready (standing_now st (st.standing ∖ single k)) rec.new index.now seniors.new }
{
    let links = Links::read(rec, seniors, k);
    take_out_at(rec, index, seniors, k, links);
}

// Puts the absent candidate k back, whose links will be these.
pub fn put_back_at(rec: &mut Record, index: &Index, seniors: &mut Table128, k: usize, links: Links)
    requires k_bound { k < 128 }
    ensures { (st : State) → Ready st rec.old index.now seniors.old → k < candidate_count (roles_of st) → has st.standing k ≡ false → Neighbours (roles_of st) (st.standing ∪ single k) k (set_of links.above) (set_of links.below) → Ready (standing_now st (st.standing ∪ single k)) rec.new index.now seniors.new }
{
    let more = load(rec, STANDING).insert(k);
    change_standing(
        rec,
        index,
        seniors,
        more,
        links.above.insert(k),
        links.below.insert(k),
    );
}

// Puts the absent candidate k back. Its links are those of the building in which it stands again, so they are computed for that.
pub fn put_back(rec: &mut Record, index: &Index, seniors: &mut Table128, k: usize)
    requires k_bound { k < 128 }
    ensures { (st : State) → Ready st rec.old index.now seniors.old → k < candidate_count (roles_of st) → has st.standing k ≡ false → Ready (standing_now st (st.standing ∪ single k)) rec.new index.now seniors.new }
{
    let standing = load(rec, STANDING).insert(k);
    let links = Links::among(index, standing, k);
    put_back_at(rec, index, seniors, k, links);
}
