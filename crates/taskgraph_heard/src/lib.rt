// What C is told can be heard: of every struct that the interface hands out, stated in proofs/ToldApart.antt.
#![tactic(auto)]
