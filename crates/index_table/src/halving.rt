// The search of a sorted table, over anything that compares.
ghost use Rattle.std.specs.Prelude.{◌≡◌, ℕ, ◌<◌, ◌≤◌, MatchResult};
ghost use Rattle.std.specs.declared.cmp.Ordering.TheVariants.{Equal};
ghost use Rattle.std.specs.declared.cmp.Ordering.{Ordering};
ghost use Rattle.index_table.specs.Search.{Falling, Sought};

use std::cmp::Ordering;

// A trait and no closure, whose contract would have to ask of each caller that it may be called at each place.
/// Something that is looked for among numbered places.
///
/// `answers` says of each place how what is looked for compares with what is there.
pub trait Probe {
    ghost answers: { Self → ℕ → Ordering };

    /// How what is looked for compares with what is at a place.
    fn compare_at(&self, place: usize) -> Ordering
        ensures { result ≡ answers self.now place };
}

/// Looks for a place among the first `len`, by halving: of n places left it compares the one with n/2,
/// rounded down, before it, until the answer is Equal or no place is left.
///
/// Where the places ascend, the answer is the first place that what is looked for is not Greater than:
/// `Ok` if it is Equal, else `Err`. On any places, `Ok` is a place where the answer is Equal.
pub fn search<P: Probe>(probe: &P, len: usize) -> Result<usize, usize>
    ensures any { MatchResult result (λ p. (p < len) × (P.Probe.answers probe.now p ≡ Equal)) (λ p. p ≤ len) }
    ensures place { Falling (P.Probe.answers probe.now) len → Sought (P.Probe.answers probe.now) len result }
{
    // It is written over a probe, so that it knows neither slots nor keys; `binary_search_by` searches a slice.
    let mut low = 0;
    let mut high = len;
    while low < high {
        let middle = low + (high - low) / 2;
        match probe.compare_at(middle) {
            Ordering::Less => high = middle,
            Ordering::Equal => return Ok(middle),
            Ordering::Greater => low = middle + 1,
        }
    }
    Err(low)
}
