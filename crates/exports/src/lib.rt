//! The product for programs in other languages: a handful of functions on numbers and slices.
#![tactic(auto)]

// each of the four C functions takes the heap, the file and its buffers one by one, as C passes them, and asks for its
// room by itself: of a buffer that a closure writes nothing is known afterwards
pub mod answer;
mod answers;
pub mod checking;
mod piles;
pub mod played;
mod playing;
pub mod reading;
mod script;
mod steps;
