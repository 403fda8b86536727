// Theorems about the rules. No code: what is proved stands in specs/.
#![tactic(auto)]
