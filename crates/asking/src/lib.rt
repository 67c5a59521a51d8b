// What the programs `questions` and `parts` have in common: how a line of the input is read (line.rt), the commands that build a file (file.rt),
// how answers are printed (show.rt, which `listing` needs too), and the sum of a row of numbers (series.rt).
#![tactic(auto)]

pub mod file;
pub mod line;
pub mod series;
pub mod show;
