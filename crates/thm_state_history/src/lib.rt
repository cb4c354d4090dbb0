// That a worker's state and the drained graph are told as they are stands in specs/.
#![tactic(auto)]
