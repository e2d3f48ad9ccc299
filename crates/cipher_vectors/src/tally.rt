// How many of the answers of one kind agreed with the vectors, and the first that did not.
ghost use Rattle.std.specs.Prelude.{◌≡◌, None, ◌==◌};
ghost use Rattle.std.specs.Int.{w128, from_be_bytes};
ghost use Rattle.cipher_vectors.specs.Counts.{more, more_if, first_off};

use std::fmt;

#[derive(Drop)]
pub struct Tally {
    tried: u64,
    agreed: u64,
    off: Option<u64>,
}

impl Tally {
    pub(crate) fn new() -> Tally
        ensures { (result.tried ≡ 0) × ((result.agreed ≡ 0) × (result.off ≡ None)) }
    {
        Tally {
            tried: 0,
            agreed: 0,
            off: None,
        }
    }

    // One more answer, and the number whose bytes it should be.
    pub(crate) fn compare(&mut self, answer: [u8; 16], wanted: u128)
        ensures tried { self.new.tried ≡ more self.old.tried }
        ensures agreed { self.new.agreed ≡ more_if (from_be_bytes w128 answer == wanted) self.old.agreed }
        ensures off { self.new.off ≡ first_off (from_be_bytes w128 answer == wanted) self.old.tried self.old.off }
    {
        if u128::from_be_bytes(answer) == wanted {
            self.agreed = self.agreed.saturating_add(1);
        } else {
            self.off = self.off.or(Some(self.tried));
        }
        self.tried = self.tried.saturating_add(1);
    }
}

impl fmt::Display for Tally {
    fn fmt<W: fmt::Write>(&self, f: &mut fmt::Formatter<W>) -> fmt::Result {
        write!(f, "{} of {} agree", self.agreed, self.tried)?;
        if let Some(n) = self.off {
            write!(f, ", the first that does not is number {n}")?;
        }
        Ok(())
    }
}
