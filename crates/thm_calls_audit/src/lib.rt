// Theorems alone: specs/ answers the auditor's question for every list of calls, and says that each call ends.
#![tactic(auto)]
