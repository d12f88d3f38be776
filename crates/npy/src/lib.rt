// NumPy's .npy arrays, as far as document 01 takes them: the header, the cells, and results as words of hexadecimal digits.
#![tactic(auto)]

mod decoder;
mod reader;
mod writer;

pub use decoder::{cell, cells};
pub use reader::{Head, Kind, data, header};
pub use writer::{put_line, put_lines};
