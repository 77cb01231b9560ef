// No code: what the verdict program prints of a plan is specs/Listing, with literal texts in specs/Examples.

#![tactic(auto)]
