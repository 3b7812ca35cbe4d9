// What a watch says along the paths of a graph: definitions and facts.
#![tactic(auto)]
