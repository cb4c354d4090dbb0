// The starred cases of docs/RULES.md as rows stand in specs/.
#![tactic(auto)]
