// What a box makes of its book: definitions for the contracts of its calls.
#![tactic(auto)]
