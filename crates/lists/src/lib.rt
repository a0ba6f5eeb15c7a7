// The functions on lists of bytes that the definitions and statements of both filesystems are made of. No code: see specs/.
#![tactic(auto)]
