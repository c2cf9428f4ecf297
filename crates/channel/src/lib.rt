// No code: a send buffer and a receive buffer joined by a channel that loses, repeats and reorders frames, and the theorem about the two:
// what is written at one end comes out of the other whole, in order and with the same final size.
#![tactic(auto)]
