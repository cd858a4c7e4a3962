//! The index of a number among others.
ghost use Rattle.std.specs.Prelude.{◌≡◌, ◌≢◌, ◌+◌, ◌<◌, ◌≤◌, ℕ, length, slice_index, IfSome, IfNone};

use std::simd::prelude::*;

/// How many numbers are looked at at once.
const LANES: usize = 16;

/// The first index of the number among the sixteen from `at` on.
fn place_in(numbers: &[u32], at: usize, wanted: u32) -> Option<usize>
    requires { at + LANES ≤ length numbers.now }
    ensures within { IfSome result (λ i. (at ≤ i) × (i < at + LANES)) }
    ensures there { IfSome result (λ i. slice_index numbers.now i ≡ wanted) }
    ensures first { IfSome result (λ i. (k : ℕ) → at ≤ k → k < i → slice_index numbers.now k ≢ wanted) }
    ensures none { IfNone result ((k : ℕ) → at ≤ k → k < at + LANES → slice_index numbers.now k ≢ wanted) }
{
    let hits = u32x16::from_slice(&numbers[at..])
        .simd_eq(u32x16::splat(wanted))
        .to_bitmask();
    if hits == 0 {
        None
    } else {
        Some(at + hits.trailing_zeros() as usize)
    }
}

/// The first index of the number.
pub fn place_of(numbers: &[u32], wanted: u32) -> Option<usize>
    ensures within { IfSome result (λ i. i < length numbers.now) }
    ensures there { IfSome result (λ i. slice_index numbers.now i ≡ wanted) }
    ensures first { IfSome result (λ i. (k : ℕ) → k < i → slice_index numbers.now k ≢ wanted) }
    ensures none { IfNone result ((k : ℕ) → k < length numbers.now → slice_index numbers.now k ≢ wanted) }
{
    let mut at = 0;
    'by_sixteen: while numbers.len() - at >= LANES {
        let place = place_in(numbers, at, wanted);
        if place.is_some() {
            return place;
        }
        at += LANES;
    }
    while at < numbers.len() {
        if numbers[at] == wanted {
            return Some(at);
        }
        at += 1;
    }
    None
}
