// The rules of a sheet of weighted links and of the distances worked out from it, in specs/, with examples: what a sheet is, walks and
// their least sums, what the call for distances returns and writes. There is no code here.

#![tactic(auto)]
