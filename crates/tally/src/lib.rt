// A tally for each row: counting a sheet afresh, and drawing and filling beside a list that is kept right.
#![tactic(auto)]

mod figure;
mod file;
mod list;
mod row;
mod territory;

pub use figure::{draw_figure, draw_metres};
pub use file::draw_file;
pub use list::{check, count};
pub use territory::fill;
