// The promises: every theorem that a demand rests on, stated in specs/Promises.antt.
#![tactic(auto)]
