// Theory only: the fewest sites that a job's two rows cover leave the most staples.

#![tactic(auto)]
