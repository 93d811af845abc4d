// Seventeen bits on the cable are one word on the bench: the chain as the host meets it, definitions and theorems alone.
#![tactic(auto)]
