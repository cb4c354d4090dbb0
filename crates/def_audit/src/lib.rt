// Definitions alone: specs/ has the auditor's question, by calls and replies; wrong machines, each refuted.
#![tactic(auto)]
