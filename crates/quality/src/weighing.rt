ghost use Rattle.std.specs.Prelude.{◌≡◌, ◌≤◌};
ghost use Rattle.model.specs.Quality.{weigh};
ghost use Rattle.quality.specs.Numbers.{counts_in, weights_in, most_quality, Few};

use crate::counts::Counts;
use crate::weights::Weights;

// At most 1,000 · (128 + 16,384 + 32,768 + 16,384).
pub fn weigh(q: Counts, w: Weights) -> u64
    requires { Few q }
    ensures value { result ≡ weigh (weights_in w) (counts_in q) }
    ensures upper_bound { result ≤ most_quality }
{
    w.role * q.roles + w.member * q.members + w.permission * q.permissions + w.link * q.links
}
