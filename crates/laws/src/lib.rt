// Facts for any width W that the proofs of the code cite. There is no code here.
#![tactic(auto)]
