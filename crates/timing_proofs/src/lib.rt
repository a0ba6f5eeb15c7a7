// Proofs of the statements of timing_spec: the lemmas are in specs/, and Proved.antt there names the proof of each.
#![tactic(auto)]

ghost use Rattle.timing_spec.specs.Laws.{Statements};

// The statements of timing_spec hold.
pub fn statements()
    ensures { Statements }
{}
