// The automaton of a set of forbidden paths, and best walks over its states: theory alone.
#![tactic(auto)]
