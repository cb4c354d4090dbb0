// How the whole calls of a history are read off its items and answers stands in specs/.
#![tactic(auto)]
