//! Numbers drawn from a seed.

ghost use Rattle.std.specs.Prelude.{◌≡◌, ◌<◌, ◌^◌, ◌/◌};
ghost use Rattle.cif_maker.specs.Draws.{stepped, after_draws};

use std::marker::Model;

/// A linear congruential generator, which contracts see as its state.
#[derive(Drop)]
pub struct Draws {
    state: u64,
}

impl Model for Draws {
    ghost use Rattle.std.specs.Prelude.{ℕ, ◌<◌, ◌^◌};

    ghost Value = { ℕ };

    ghost view = { λ d. d.state };

    ghost invariant = { λ d. d.state < 2 ^ 31 };

    ghost inverse = { λ s. record { state = s } };
}

impl Draws {
    /// The generator whose first state is the seed.
    pub fn new(seed: u64) -> Draws
        requires { seed < 2 ^ 31 }
        ensures { result ≡ seed }
    {
        Draws { state: seed }
    }

    /// The next number.
    pub fn next(&mut self) -> u64
        ensures state { self.new ≡ stepped self.old }
        ensures number { result ≡ stepped self.old / 65536 }
    {
        self.state = (self.state * 1103515245 + 12345) % 2147483648;
        self.state / 65536
    }

    /// Leaves out `count` numbers.
    pub fn skip(&mut self, count: u64)
        ensures { self.new ≡ after_draws count self.old }
    {
        for _i in 0..count {
            self.next();
        }
    }
}
