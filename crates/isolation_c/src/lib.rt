// No code: isolation of a host in C, proved of runs of the entries of the crate `rnic_c` in any
// mixture, on one block of words, one store and one second slice. It is a corollary of the theorem by
// numbers of the crate `isolation`. Read specs/Request.antt, what a host calls, then proofs/Calls.antt,
// one call, proofs/Runs.antt, what a run is and shows, and proofs/Isolation.antt, the theorem
// `two-nights-in-c`.
#![tactic(auto)]
