// The specification of the pump's timing file: the requests as definitions, and the statements about them as types. No code and no proof: see specs/.
#![tactic(auto)]
