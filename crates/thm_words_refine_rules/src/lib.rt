// That the words do what the rules do, item by item, is shown in specs/.
#![tactic(auto)]
