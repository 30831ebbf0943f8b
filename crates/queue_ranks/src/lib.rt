// The queue of a line by the ranks of its tasks: definitions in specs/, what joining and leaving make of it in proofs/.
#![tactic(auto)]
