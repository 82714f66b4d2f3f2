// Worked examples, as one theorem over the definitions that the contracts of the crates below cite.
// A function that carries a theorem has no body to change, so this crate has no must-fail edits.
#![tactic(auto)]

ghost use Rattle.examples.specs.Worked.{WorkedExamples};

use kinds::kind::Kind;
use kinds::tally::Tally;

// Taking off a tally, a small file whole, cut short and too long, two unlockable sets, and a listing of calls
// with the one serial order that explains what they come to.
pub fn worked_examples_stand()
    ensures { WorkedExamples ⟦<Tally as Kind>⟧ }
{}
