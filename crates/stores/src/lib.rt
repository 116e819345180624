// Values stored into a list: the definition in specs/, its laws in proofs/, and no code.
#![tactic(auto)]
