// The starting lines of pages that end with one line after another, for a fixed first and last column. The usable ones are a
// window whose ends never fall. It has two parts, that of full pages and that of pages with white.
#![tactic(auto)]

pub mod rows; // rows.rt: three words of a slice as one row
pub mod slide; // slide.rt: the ends of the window, moved on
pub mod sums; // sums.rt: the heights of the text from its first line on
pub mod windows; // windows.rt: the windows of all lines, kept from side to side
