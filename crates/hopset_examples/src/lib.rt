// No code: plans as literal bytes, and what the call that names a set must answer.

#![tactic(auto)]
