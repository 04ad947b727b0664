// The order of numbers, of which keys are made.
ghost use Rattle.std.specs.Prelude.{◌≡◌};
ghost use Rattle.std.specs.Ordering.{nat_cmp};

use std::cmp::Ordering;

// A public call for kinds whose keys are numbers of any width up to 64 bits.
/// How two numbers compare. A key of several parts joins such answers by `Ordering::then`.
pub fn compare_numbers(a: u64, b: u64) -> Ordering
    ensures { result ≡ nat_cmp a b }
{
    a.cmp(&b)
}
