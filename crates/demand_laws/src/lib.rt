// Theory only: what the operations give meets the demands.

#![tactic(auto)]
