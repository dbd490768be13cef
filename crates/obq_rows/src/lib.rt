//! Programs whose runs are computed by the definitions of obq_model. No code runs here: each row is a lemma of proofs/, and holds by
//! computing both of its sides.
#![tactic(auto)]
