// The starred cases of the rules, proved of the definitions as one table. No code: see specs/.
#![tactic(auto)]
