// A smallest set of reflectors that makes a list stable once they have the hop step, over any network: definitions and theorems alone.

#![tactic(auto)]
