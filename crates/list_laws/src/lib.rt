// Laws of the functions in lists. No code: see specs/.
#![tactic(auto)]
