// Lines of an order book as text: the forms, the line reader, and the text of a line.

#![tactic(auto)]

mod form_name;
pub mod line;
mod line_reader;
mod line_text;
pub mod phase;
pub mod reader;
pub mod refusal;
pub mod writer;
