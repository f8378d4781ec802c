// What the calls for C promise, told by what C sees of them: laws over their contracts. There is no code here.
#![tactic(auto)]
