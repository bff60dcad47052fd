// A station lent by a host in C: emptied, another site's book joined into its own, its own book as bytes.
#![tactic(auto)]

mod emptying;
mod joining;
mod sending;

pub use emptying::spineyarrow_fresh;
pub use joining::spineyarrow_join;
pub use sending::spineyarrow_book;
