// Theorems about the check and the repair of a whole store; no code.
#![tactic(auto)]
