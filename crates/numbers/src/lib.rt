// How far two numbers are apart, and an array that holds its own indices.
#![tactic(auto)]

ghost use Rattle.std.specs.Prelude.{◌≡◌, ◌^◌, ◌<◌, ◌≤◌, length};
ghost use Rattle.base.specs.Numbers.{distance};
ghost use Rattle.base.specs.Lists.{filled};
ghost use Rattle.limits.specs.Limits.{most_leaves};

// How far two numbers are apart.
pub fn apart(x: u32, y: u32) -> u32
    ensures { (result ≡ distance x y) × (result < 2 ^ 32) }
{
    x.abs_diff(y)
}

// Each of n leaves gets its own number. For the crates above.
pub fn own_numbers(n: usize, numbers: &mut [u32])
    requires { (n ≤ most_leaves) × (n ≤ length numbers.old) }
    ensures { numbers.new ≡ filled n (λ k. k) numbers.old }
{
    for i in 0..n {
        numbers[i] = i as u32;
    }
}
