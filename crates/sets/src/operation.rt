// The four ways to make one set of two, on a word of each.
ghost use Rattle.std.specs.Prelude.{◌≡◌, ℕ};
ghost use Rattle.bits.specs.Bits.{bit};
ghost use Rattle.sets.specs.Operations.{combined};

#[derive(Clone, Copy, PartialEq, Eq, Debug)]
pub enum SetOperation {
    Union,
    Intersection,
    Difference,
    SymmetricDifference,
}

impl SetOperation {
    // The word of the members that the operation makes of those of two words.
    pub fn on_words(self, a: u64, b: u64) -> u64
        ensures { (k : ℕ) → bit result k ≡ combined self (bit a k) (bit b k) }
    {
        match self {
            SetOperation::Union => a | b,
            SetOperation::Intersection => a & b,
            SetOperation::Difference => a ^ (a & b),
            SetOperation::SymmetricDifference => a ^ b,
        }
    }
}
