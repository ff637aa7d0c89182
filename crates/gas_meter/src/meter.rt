ghost use Rattle.std.specs.Prelude.{◌≡◌, ◌+◌, ◌^◌, ◌<◌, ◌≤◌, ◌↔◌, min, IsErr, OnOk, OnErr};
ghost use Rattle.gas_meter.specs.Gas.{unused, spent, exhausted};

use std::marker::Model;
use thiserror::Error;

/// A charge for more than was left. All gas is used.
#[derive(Clone, Copy, Debug, PartialEq, Eq, Error)]
#[error("out of gas")]
pub struct OutOfGas;

/// How much gas is left of a limit, and how much was used.
#[derive(Debug, Drop)]
pub struct Meter {
    left: u64,
    used: u64,
}

impl Model for Meter {
    ghost use Rattle.std.specs.Prelude.{◌+◌, ◌^◌, ◌<◌};
    ghost use Rattle.gas_meter.specs.Gas.{Gas};

    ghost Value = { Gas };

    ghost view = { λ m. record { left = m.left; used = m.used } };

    ghost invariant = { λ m. m.left + m.used < 2 ^ 64 };
}

impl Meter {
    pub fn new(limit: u64) -> Meter
        ensures { result ≡ unused limit }
    {
        Meter {
            left: limit,
            used: 0,
        }
    }

    pub fn left(&self) -> u64
        ensures { result ≡ self.now.left }
    {
        self.left
    }

    pub fn used(&self) -> u64
        ensures used { result ≡ self.now.used }
        ensures limit { self.now.left + self.now.used < 2 ^ 64 }
    {
        self.used
    }

    /// Uses the gas of one step. Where too little is left, all of that is used.
    pub fn charge(&mut self, n: u64) -> Result<(), OutOfGas>
        ensures refused { IsErr result ↔ (self.old.left < n) }
        ensures ok { OnOk result (self.new ≡ spent self.old n) }
        ensures err { OnErr result (self.new ≡ exhausted self.old) }
    {
        if self.left < n {
            self.used += self.left;
            self.left = 0;
            return Err(OutOfGas);
        }
        self.spend(n);
        Ok(())
    }

    /// Uses gas for a cost that may have more than 64 bits. Where too little is left, all of that is used.
    pub fn charge_wide(&mut self, n: u128) -> Result<(), OutOfGas>
        ensures refused { IsErr result ↔ (self.old.left < n) }
        ensures ok { OnOk result (self.new ≡ spent self.old n) }
        ensures err { OnErr result (self.new ≡ exhausted self.old) }
    {
        match u64::try_from(n) {
            Ok(cost) => self.charge(cost),
            Err(_) => {
                self.spend(self.left);
                Err(OutOfGas)
            }
        }
    }

    /// A meter of its own for a part of what is left. What it uses is to be spent here afterwards.
    pub fn part(&self, limit: u64) -> Meter
        ensures { result ≡ unused (min limit self.now.left) }
    {
        Meter::new(limit.min(self.left))
    }

    /// Uses gas that is known to be left, such as what a part has used.
    pub fn spend(&mut self, n: u64)
        requires { n ≤ self.old.left }
        ensures { self.new ≡ spent self.old n }
    {
        self.left -= n;
        self.used += n;
    }
}
