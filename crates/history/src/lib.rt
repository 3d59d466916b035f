// Demand 3: what every list of calls from a fresh session gives. The claim is specs/Histories, its proof proofs/Histories;
// there is no code.
#![tactic(auto)]
