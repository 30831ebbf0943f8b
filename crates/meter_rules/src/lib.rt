// The ticks that tasks have waited, and what meters count, by the rules alone (document 02 §5). The definitions are in specs/, the theorems
// for whole lists of calls in proofs/; there is no code here.
#![tactic(auto)]
