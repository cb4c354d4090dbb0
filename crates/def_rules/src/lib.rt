// The rules of the task graph stand in specs/.
#![tactic(auto)]
