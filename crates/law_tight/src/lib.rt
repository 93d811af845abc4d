// How tight a contract is: theory over contracts of several parts, no code of its own.
#![tactic(auto)]
