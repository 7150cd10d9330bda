// The laws of a reason: which cells it names, its sentence, and that both can be had back from it.

#![tactic(auto)]
