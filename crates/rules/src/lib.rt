// The rules of each wave, in specs/, and that they keep the laws of a wave.

#![tactic(auto)]
