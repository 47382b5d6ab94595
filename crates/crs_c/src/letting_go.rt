//! Dropping what a caller of C held.

// `Send` has the prover show that another thread may drop it.
pub(crate) fn let_go_anywhere<T: Send + Drop>(held: T) {
    drop(held);
}
