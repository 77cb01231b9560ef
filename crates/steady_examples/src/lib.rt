// No code: plans as literal bytes, and what the call that lists steady tables must answer. They take a while to work out, and so stand apart.

#![tactic(auto)]
