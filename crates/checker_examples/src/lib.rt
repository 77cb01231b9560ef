// No code: plans as literal bytes, what is asked of them, and the whole answer as literal bytes and numbers.

#![tactic(auto)]
