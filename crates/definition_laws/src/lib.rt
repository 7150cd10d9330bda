// Theory only: theorems about the definitions.

#![tactic(auto)]
