//! The operators of bodies on numbers of 64 bits.
//!
//! In: an operator, a relation or a sign, and numbers. Out: the number, or the kind of the trap; of `decided`, what `&&` and `||`
//! are where the left side alone tells. The theorems are `decided` and `operate`: one after the other they give just what the
//! operator gives. A kind is handed on as a word, `KindWord`. Where numbers are small, `plus_small_products` adds their products
//! without a look at what could overflow.
#![tactic(auto)]

mod kind_word;
mod operators;
mod small;

pub use kind_word::{KindWord, in_words};
pub use operators::{
    compare, decided, greater, is_true, lesser, negated, number, operate, plus, times,
};
pub use small::{are_small, plus_small_products};
