//! What a person is told of what `overlay` refuses. The texts were written by hand from the forms of the files. More of
//! them are examples.
mod agreement;
mod long_lines;
mod refusals;
