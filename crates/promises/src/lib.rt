// No code: the promises are theorems over the definitions, in specs/.
#![tactic(auto)]
