// No code: what the margin program prints of its input is specs/Margin, with literal texts in specs/Examples.

#![tactic(auto)]
