// The theorems on the chain, over the definitions that its functions are proved against.
#![tactic(auto)]
