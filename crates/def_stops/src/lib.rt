// Definitions alone: specs/ says whether damage stopped a call run whole half done, and which entry of a sheet.
#![tactic(auto)]
