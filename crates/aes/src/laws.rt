// Theorems about the definitions, each the contract of a function.
ghost use Rattle.aes.specs.Field.{Inverses};

// The inverse that S is built on is the one and only.
#[tactic(auto, using(crate::proofs::AllBytes::inverses))]
pub fn inverses_stand()
    ensures { Inverses }
{}
