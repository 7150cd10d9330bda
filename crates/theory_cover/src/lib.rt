// Theory only: two rows in file order, and the fewest sites that they cover.

#![tactic(auto)]
