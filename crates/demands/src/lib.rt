// The demands on this library, each stated once: proofs/Demand1.antt, Demand2.antt with Demand2C.antt and Promise.antt, Demand3.antt. There is no code here.
#![tactic(auto)]
