// Which role of a pass comes next.
ghost use Rattle.std.specs.Prelude.{◌≤◌};
ghost use Rattle.sets.specs.Held.{set_of};
ghost use Rattle.edit_order.specs.Ranking.{sets_of, Next};

use crate::ranks::Ranks;
use sets::Set128;

// The role that comes next, and its rank.
#[derive(Clone, Copy)]
pub struct Front {
    pub role: usize,
    pub rank: usize,
}

// The role of `todo` of the highest rank, and of several such the lowest. No rank is above `top`: the rank of the role before, so that a pass walks
// down the ranks once.
pub fn foremost(ranks: &Ranks, todo: Set128, top: usize) -> Option<Front>
    requires { top ≤ 128 }
    ensures { Next (sets_of ranks.now) (set_of todo) top result }
{
    for rank in (0..top + 1).rev() {
        if let Some(role) = ranks[rank].intersection(todo).lowest() {
            return Some(Front { role, rank });
        }
    }
    // no rank has any of them: then they are none, or these are not their ranks
    let role = todo.lowest()?;
    Some(Front { role, rank: 0 })
}
