//! The taps of a low-pass.

ghost use Rattle.std.specs.Prelude.{◌≡◌, ◌-◌, ◌≤◌, ◌^◌, sum_by, unsigned_abs};
ghost use Rattle.clip_core.specs.Mixes.{total};

/// The sum of taps, whose absolute values add up to at most `2^31 - 1`.
pub fn total(taps: &[i32]) -> i64
    requires { sum_by unsigned_abs taps.now ≤ 2 ^ 31 - 1 }
    ensures { result ≡ total taps.now }
{
    let mut sum = 0i64;
    for tap in taps {
        sum += i64::from(*tap);
    }
    sum
}
