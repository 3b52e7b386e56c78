// Numbers of 64 or 128 digits, in which weights are added up.
ghost use Rattle.std.specs.Prelude.{◌≡◌, ◌+◌, ◌*◌, ◌<◌, ◌≤◌, ◌^◌, ℕ};

/// A weight or a sum of weights, in as many digits as the type has.
pub(crate) trait Amount: Copy + Drop {
    // which number it is, and what all of the type are below
    ghost number: { Self → ℕ };

    ghost bound: { ℕ };

    fn zero() -> Self
        ensures { number result ≡ 0 };

    fn of(weight: u128) -> Self
        requires { weight < bound }
        ensures { number result ≡ weight };

    fn weight(self) -> u128
        ensures { result ≡ number self };

    fn plus(self, more: Self) -> Self
        requires { number self + number more < bound }
        ensures { number result ≡ number self + number more };

    fn times(self, factor: u64) -> Self
        requires { number self * factor < bound }
        ensures { number result ≡ number self * factor };

    ghost within: { bound ≤ 2 ^ 128 };
}

impl Amount for u64 {
    ghost use Rattle.std.proofs.Common.{rules};

    ghost number = { λ n. n };

    ghost bound = { 2 ^ 64 };

    ghost within = { Prim.search rules };

    #[inline(always)]
    fn zero() -> u64 {
        0
    }

    #[inline(always)]
    fn of(weight: u128) -> u64 {
        weight as u64
    }

    #[inline(always)]
    fn weight(self) -> u128 {
        u128::from(self)
    }

    #[inline(always)]
    fn plus(self, more: u64) -> u64 {
        self + more
    }

    #[inline(always)]
    fn times(self, factor: u64) -> u64 {
        self * factor
    }
}

impl Amount for u128 {
    ghost use Rattle.std.proofs.Common.{rules};

    ghost number = { λ n. n };

    ghost bound = { 2 ^ 128 };

    ghost within = { Prim.search rules };

    #[inline(always)]
    fn zero() -> u128 {
        0
    }

    #[inline(always)]
    fn of(weight: u128) -> u128 {
        weight
    }

    #[inline(always)]
    fn weight(self) -> u128 {
        self
    }

    #[inline(always)]
    fn plus(self, more: u128) -> u128 {
        self + more
    }

    #[inline(always)]
    fn times(self, factor: u64) -> u128 {
        self * u128::from(factor)
    }
}
