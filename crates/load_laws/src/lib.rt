// The laws of a load: what is drawn, its lines, and that the reader accepts it.

#![tactic(auto)]
