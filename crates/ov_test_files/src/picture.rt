//! Tests of pictures of certificates: what is drawn. Their texts are examples.
mod drawn;
mod memory;
mod square;
