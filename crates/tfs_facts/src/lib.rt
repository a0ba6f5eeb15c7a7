// Facts on the TFS definitions that code and proofs use. No code: see specs/.
#![tactic(auto)]
