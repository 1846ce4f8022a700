// Laws alone, in proofs/: what the other crates' proofs cite and no rule of document 01 states.
#![tactic(auto)]
