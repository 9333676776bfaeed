// File formats as tables of kinds, and what their files mean: theory only, without code.
#![tactic(auto)]
