// Any figure, in cells or in metres, and a whole file, onto a sheet.
#![tactic(auto)]

mod figure;
mod file;
mod metres;

pub use figure::draw_figure;
pub use file::draw_file;
pub use metres::draw_metres;
