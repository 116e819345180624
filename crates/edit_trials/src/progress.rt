// What an elimination or a review carries from one role to the next.
ghost use Rattle.std.specs.Prelude.{◌≡◌, ◌≤◌};
ghost use Rattle.model.specs.Quality.{weigh};
ghost use Rattle.quality.specs.Numbers.{counts_in, weights_in, most_quality, Few};

use quality::{Counts, Weights, weigh};

// The counts of the record as it stands, the quality that the next trial is compared with, and how many roles were changed and examined.
#[derive(Clone, Copy)]
pub struct Progress {
    pub counts: Counts,
    pub quality: u64,
    pub changed: u64,
    pub examined: u64,
}

impl Progress {
    // What is held before the first role is taken up, where the record has these counts.
    pub fn begin(counts: Counts, w: Weights) -> Progress
        requires { Few counts }
        ensures counts { result.counts ≡ counts }
        ensures quality { result.quality ≡ weigh (weights_in w) (counts_in counts) }
        ensures upper_bound { result.quality ≤ most_quality }
        ensures changed { result.changed ≡ 0 }
        ensures examined { result.examined ≡ 0 }
    {
        Progress {
            counts,
            quality: weigh(counts, w),
            changed: 0,
            examined: 0,
        }
    }
}
