// Theory only: laws of lists and of comparisons that know nothing of rows.

#![tactic(auto)]
