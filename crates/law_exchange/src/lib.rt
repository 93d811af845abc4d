// The host that sends a word bit by bit over any cable, and what comes of it at one unit: definitions and theorems alone.
#![tactic(auto)]
