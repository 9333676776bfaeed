// What a typed text means: theory only, without code. `typed_text` hears it.
#![tactic(auto)]
