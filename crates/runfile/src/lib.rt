// What is promised of run files, as theorems over the definitions of `records`, `format`, `record` and `writer`. They are in specs/; there is no code here.
#![tactic(auto)]
