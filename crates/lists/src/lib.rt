// Facts on lists and tests: theory alone.
#![tactic(auto)]
