// The weights of a quality, and the tolerance of an elimination: every value of these types is in its range.
ghost use Rattle.std.specs.Prelude.{◌≡◌, is_some, IfSome};
ghost use Rattle.std.proofs.Math.Bool.{So};
ghost use Rattle.model.specs.Quality.{weights_allowed, tolerance_allowed};
ghost use Rattle.quality.specs.Given.{weights_of, tolerance_of};

const MOST_WEIGHT: u64 = 1000;

// One for each of the four counts.
#[derive(Clone, Copy)]
pub struct Weights {
    pub role: u64,
    pub member: u64,
    pub permission: u64,
    pub link: u64,
    pub ghost allowed: { So (weights_allowed (weights_of role member permission link)) },
}

impl Weights {
    ghost use Rattle.quality.specs.Numbers.{weights_in};

    // None where a weight is above 1,000.
    pub fn new(role: u64, member: u64, permission: u64, link: u64) -> Option<Weights>
        ensures when { is_some result ≡ weights_allowed (weights_of role member permission link) }
        ensures value { IfSome result (λ w. weights_in w ≡ weights_of role member permission link) }
    {
        if role <= MOST_WEIGHT
            && member <= MOST_WEIGHT
            && permission <= MOST_WEIGHT
            && link <= MOST_WEIGHT
        {
            Some(Weights {
                role,
                member,
                permission,
                link,
            })
        } else {
            None
        }
    }
}

// The tolerance a/b.
#[derive(Clone, Copy)]
pub struct Tolerance {
    pub numerator: u64,
    pub denominator: u64,
    pub ghost allowed: { So (tolerance_allowed (tolerance_of numerator denominator)) },
}

impl Tolerance {
    ghost use Rattle.quality.specs.Numbers.{tolerance_in};

    // None where a/b does not lie from 1 to 2, or b not from 1 to 1,000. b is judged before 2b is formed.
    pub fn new(a: u64, b: u64) -> Option<Tolerance>
        ensures when { is_some result ≡ tolerance_allowed (tolerance_of a b) }
        ensures value { IfSome result (λ t. tolerance_in t ≡ tolerance_of a b) }
    {
        if b < 1 || 1000 < b {
            return None;
        }
        let twice = 2 * b;
        if b <= a && a <= twice {
            Some(Tolerance {
                numerator: a,
                denominator: b,
            })
        } else {
            None
        }
    }
}
