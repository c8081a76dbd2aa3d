// A whole channel: what the session's calls lead to, pixel after pixel, is a definition over the residuals (specs/Channel.antt, proofs/Follows.antt).

#![tactic(auto)]
