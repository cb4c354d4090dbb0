// What an audit asks of every history by the rules is shown in specs/.
#![tactic(auto)]
