// No code: lists of calls that meet all that demand 3 supposes, the receiving end's corner cases and split calls, the remainders
// that bad events report, and tint orders, computed.

#![tactic(auto)]
