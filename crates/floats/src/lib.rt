// What a float is, said in whole numbers: theory only, without code.
#![tactic(auto)]
