ghost use Rattle.std.specs.Prelude.{◌≡◌, ℕ, ◌+◌};
ghost use Rattle.job_spec.specs.Turns.{draw};
ghost use Rattle.job_gen.specs.Made.{number};

use std::marker::Model;

/// The random sequence of a seed. Contracts see its current state.
#[derive(Drop)]
pub struct Numbers {
    state: u64,
}

impl Model for Numbers {
    ghost use Rattle.std.specs.Prelude.{ℕ, ◌<◌, ◌^◌};

    ghost Value = { ℕ };

    ghost view = { λ n. n.state };

    ghost invariant = { λ n. n.state < 2 ^ 31 };

    ghost inverse = { λ n. record { state = n } };
}

impl Numbers {
    /// The sequence of a seed, before its first number.
    pub fn of(seed: u32) -> Numbers
        ensures { result ≡ draw seed 0 }
    {
        Numbers {
            state: u64::from(seed) % 2147483648,
        }
    }

    /// The next number, below 32,768.
    pub fn next(&mut self) -> u64
        ensures number { (seed i : ℕ) → self.old ≡ draw seed i → result ≡ number seed (i + 1) }
        ensures goes_on { (seed i : ℕ) → self.old ≡ draw seed i → self.new ≡ draw seed (i + 1) }
    {
        self.state = (1103515245 * self.state + 12345) % 2147483648;
        self.state / 65536
    }
}
