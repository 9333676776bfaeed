// What recorded things mean, be they files or texts: theory only, without code.
#![tactic(auto)]
