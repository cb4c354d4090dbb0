// Choice by a test, maps, lists of numbers, and their laws: under everything.
#![tactic(auto)]
