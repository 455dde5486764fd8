// No code: TCP cuts where it likes, and what a stream makes of its bytes does not turn on the cuts. An
// offer of some bytes, over any receive, and what receive must keep to are specs/Cuts.antt; a domain's
// receive as one is specs/Received.antt. Read then the theorems: proofs/Cuts.antt, of any receive, and
// proofs/Domain.antt, of a domain's.
#![tactic(auto)]
