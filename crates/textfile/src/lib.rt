// What is promised of typed texts and listings, as theorems over the definitions of `spoken`, `listing_text` and `text`. They are in specs/; there is no code here.
#![tactic(auto)]
