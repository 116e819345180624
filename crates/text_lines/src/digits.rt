// The digits of a set: of permissions in a crew text, of roles and users too in a listing.
ghost use Rattle.std.specs.Prelude.{◌≡◌, ◌≤◌};
ghost use Rattle.text_lines.specs.Format.{digits_for};

// How many hexadecimal digits a set of items below `size` has.
#[tactic(auto, unfolding(crate::specs::Format::digits_for))]
pub fn digits_for(size: u64) -> usize
    requires { size ≤ 256 }
    ensures value { result ≡ digits_for size }
    ensures upper_bound { result ≤ 64 }
{
    (size as usize).div_ceil(4)
}
