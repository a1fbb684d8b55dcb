//! The lines of a log (this project's own): the line of an event, the writing of lines, and the reading of one.
//!
//! Each line tells one event of an end or of a worker. Its parts have one space between each two. Numbers are decimal,
//! with no sign and no leading zeros; a frame is hex in lower case, two digits a byte.
#![tactic(auto)]

mod batch;
mod fault;
mod laws;
mod line;
mod log_line;
mod page_line;
mod parts;
mod reading;
mod side;
mod word;
mod worked;
mod writing;

pub use fault::LineFault;
pub use laws::{lines_end_at_line_feeds, written_lines_are_read, written_lines_differ};
pub use line::{Line, add_line, line_of};
pub use log_line::LogLine;
pub use page_line::{add_log_line, line_of_page};
pub use parts::{first_part, next_number, number_in};
pub use reading::read_line;
pub use side::Side;
pub use worked::worked_texts;
pub use writing::write_lines;
