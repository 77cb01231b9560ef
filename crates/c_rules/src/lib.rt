// The public calls as C sees them: what each returns and leaves behind its pointers, in specs/, with examples. There is no code here.

#![tactic(auto)]
