// What insertion and chains do to the tables is what model defines (proofs/). No code.
