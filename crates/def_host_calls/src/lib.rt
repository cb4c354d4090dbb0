// Definitions alone: specs/ has what a host calls, and what each call is worth in items.
#![tactic(auto)]
