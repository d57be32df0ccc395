//! Laws of a merge in place, for lists of any kind and order: new elements, in order, are merged from the back into a list
//! that has room for them.
//!
//! The lemmas in proofs/ are its one promise, and it has no function: where each step of such a merge moves the greater of
//! the last old and the last new element to the back, the list that comes of it is in order and has the old elements and
//! the new ones. It stands on nothing.
#![tactic(auto)]
