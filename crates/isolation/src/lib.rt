// No code: what is proved of the device over a whole list of calls, from the contracts of the crates
// `rnic` and `calls`, and from the definition of an offer. A's book is specs/Book.antt; read then
// proofs/Calls.antt, one call, proofs/Runs.antt, what a run is and shows, and proofs/Isolation.antt,
// the theorem `two-nights`.
#![tactic(auto)]
