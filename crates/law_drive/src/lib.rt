// Each rule of a drive takes a sound drive to a sound drive: theory over the definitions, no code of its own.
#![tactic(auto)]
