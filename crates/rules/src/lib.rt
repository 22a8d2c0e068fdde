// Document 01 stands in specs/, its laws in proofs/. There is no code here; a crate wants one function.
#![tactic(auto)]

pub fn nothing() -> usize {
    0
}
