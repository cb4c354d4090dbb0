// That calls are paced by their steps, and that the plain book follows every history by the rules, stands in specs/.
#![tactic(auto)]
