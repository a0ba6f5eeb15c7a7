// Proofs of the statements of tfs_spec: the lemmas are in specs/, and Proved.antt there names the proof of each.
#![tactic(auto)]

ghost use Rattle.tfs_spec.specs.Laws.{Statements};

// The statements of tfs_spec hold.
pub fn statements()
    ensures { Statements }
{}
