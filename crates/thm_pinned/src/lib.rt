// What the numbers of the rules and the words of a fresh graph are, by numerals, stands in specs/.
#![tactic(auto)]
