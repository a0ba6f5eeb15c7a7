// Facts on the romfs definitions that code and proofs use. No code: see specs/.
#![tactic(auto)]
