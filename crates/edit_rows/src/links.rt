// The links of a role, where it stands.
ghost use Rattle.std.specs.Prelude.{◌^◌, ◌<◌};
ghost use Rattle.sets.specs.Held.{set_of};
ghost use Rattle.model.specs.Hierarchy.{Roles, candidate_count};
ghost use Rattle.model.specs.State.{State, roles_of};
ghost use Rattle.hierarchy.specs.Tables.{Numbered};
ghost use Rattle.indexes.specs.declared.index.Index.{Index};
ghost use Rattle.indexes.specs.Index.{LowerRoles};
ghost use Rattle.rows.specs.Linked.{Ready};
ghost use Rattle.edit_rows.specs.Neighbours.{Neighbours};

use hierarchy::{juniors_of, seniors_of};
use indexes::Index;
use sets::Set128;
use tables::{JUNIORS, Record, Table128, load};

// A role's immediate seniors above, and its immediate juniors below.
#[derive(Clone, Copy)]
pub struct Links {
    pub above: Set128,
    pub below: Set128,
}

impl Links {
    // Those of the standing role k, which the table and the record hold.
    pub fn read(rec: &Record, seniors: &Table128, k: usize) -> Links
        requires { k < 128 }
        ensures { (st : State) (index : Index) → Ready st rec.now index seniors.now → Neighbours (roles_of st) st.standing k (set_of result.above) (set_of result.below) }
    {
        Links {
            above: load(seniors, 2 * k),
            below: load(rec, JUNIORS + 2 * k),
        }
    }

    // Those that the candidate k would have in the building of `standing`, found from the index.
    pub fn among(index: &Index, standing: Set128, k: usize) -> Links
        requires { k < 128 }
        ensures { (ρ : Roles) → Numbered ρ → LowerRoles ρ index.now → set_of standing < 2 ^ candidate_count ρ → Neighbours ρ (set_of standing) k (set_of result.above) (set_of result.below) }
    {
        Links {
            above: seniors_of(&index.lower, standing, k),
            below: juniors_of(&index.lower, standing, k),
        }
    }
}
