// That every plan stores words, so that no counter passes the largest word, stands in specs/.
#![tactic(auto)]
