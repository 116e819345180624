ghost use Rattle.std.specs.Prelude.{◌≡◌, ◌+◌, ◌*◌, ◌≤◌, ◌<◌, length};
ghost use Rattle.sets.specs.Held.{set_of};
ghost use Rattle.sets.specs.Sets.{subset, collect};
ghost use Rattle.model.specs.Lists.{set_at};

use columns::gathered;
use sets::Set128;
use tables::load;

// The roles below k whose set lies within that of k. A proper subset has a lower number, so these are all the roles that can be junior to k.
pub fn lower_of(sets: &[u64], k: usize) -> Set128
    requires k_bound { k < 128 }
    requires k_in_bounds { 4 * k + 4 ≤ length sets.now }
    ensures { set_of result ≡ collect k (λ j. subset (set_at 4 sets.now (4 * j)) (set_at 4 sets.now (4 * k))) }
{
    let s = load::<4>(sets, 4 * k);
    gathered(
        k,
        |j|
            requires { 4 * j + 4 ≤ length sets.now }
            ensures { result ≡ subset (set_at 4 sets.entry.now (4 * j)) (set_of s) }
        { load::<4>(sets, 4 * j).is_subset(s) },
    )
}
