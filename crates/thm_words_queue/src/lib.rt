// How a job enters the queue, and what is stored there, stands in specs/: theorems for all tables, damaged ones too.
#![tactic(auto)]
