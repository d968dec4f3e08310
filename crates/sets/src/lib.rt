// Sets of cases as 64-bit numbers: inclusion, membership, the lowest n cases, the lowest place, a set changed at one
// place. Every function takes any numbers and refuses nothing; the laws that the other crates rest on are in proofs/.
#![tactic(auto)]

ghost use Rattle.std.specs.Prelude.{◌≡◌, MatchOption};
ghost use Rattle.std.specs.Int.Count.{ones};
ghost use Rattle.std.specs.Iterator.{at_most};
ghost use Rattle.sets.specs.First.{First, Rest, Next, Without, With, Upper};
ghost use Rattle.sets.specs.Sets.{bit, is_subset, lowest as lowest_cases};

// The cases that a set can hold.
const PLACES: u64 = 64;

// All 64 cases.
const ALL: u64 = 0xffff_ffff_ffff_ffff;

// Whether every case of `a` is in `b`.
pub fn subset(a: u64, b: u64) -> bool
    ensures { result ≡ is_subset a b }
{
    (a & b) == a
}

// Whether place `k` (case k + 1) is in `a`; no place past the 64th is.
pub fn has(a: u64, k: u64) -> bool
    ensures { result ≡ bit a k }
{
    if PLACES <= k {
        return false;
    }
    (a >> k) % 2 == 1
}

// The set of the lowest `n` cases; all 64 where `n` is larger. A number has no bit 64 to shift to, so `n` = 64 is
// looked at by itself.
pub fn lowest(n: u64) -> u64
    ensures { result ≡ lowest_cases n }
{
    if PLACES <= n {
        return ALL;
    }
    (1u64 << n) - 1
}

// How many cases are in `a`.
pub fn count(a: u64) -> u32
    ensures { result ≡ ones a }
{
    u64::count_ones(a)
}

// The lowest place of a set; 64 for the empty one. A number and no `Option`, since the clause (`First`) says 64.
pub fn first(a: u64) -> usize
    ensures { First a result }
{
    u64::trailing_zeros(a) as usize
}

// A set without its lowest place; the empty set stays empty.
pub fn rest(a: u64) -> u64
    ensures { Rest a result }
{
    if a == 0 {
        return 0;
    }
    a & (a - 1)
}

// The places of a set, from the lowest on: what is left of the set is the state of a loop over them.
#[derive(Clone, Copy)]
pub struct Places(pub u64);

impl Iterator for Places {
    type Item = usize;

    ghost next_gives = { λ s r t. MatchOption r ((s.0 ≡ 0) × (t.0 ≡ 0)) (λ k. Next s.0 k t.0) };

    ghost remaining = { λ s. at_most s.0 };

    fn next(&mut self) -> Option<usize> {
        if self.0 == 0 {
            return None;
        }
        let k = first(self.0);
        self.0 = rest(self.0);
        Some(k)
    }
}

// `a` without place `k`.
pub fn without(a: u64, k: u64) -> u64
    ensures { Without a k result }
{
    if !has(a, k) {
        return a;
    }
    a - (1u64 << k)
}

// `a` with place `k`; `a` itself where `k` is none of the 64 places.
pub fn with(a: u64, k: u64) -> u64
    ensures { With a k result }
{
    if PLACES <= k {
        return a;
    }
    a | (1u64 << k)
}

// The places of `a` from `k` on.
pub fn upper(a: u64, k: u64) -> u64
    ensures { Upper a k result }
{
    if PLACES <= k {
        return 0;
    }
    (a >> k) << k
}
