// What a word given to a slot keeps: theory over the definitions of what C calls, no code of its own.
#![tactic(auto)]
