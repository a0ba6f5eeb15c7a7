// The romfs specification: the rules as definitions, and the statements about them as types. No code and no proof: see specs/.
#![tactic(auto)]
