// Proofs of the statements of romfs_spec: the lemmas are in specs/, and Proved.antt there names the proof of each.
#![tactic(auto)]

ghost use Rattle.romfs_spec.specs.Statements.{Statements};

// The statements of romfs_spec hold.
pub fn statements()
    ensures { Statements }
{}
