// Theorems only: what the customer demands, over the definitions that the contracts cite.
#![tactic(auto)]
