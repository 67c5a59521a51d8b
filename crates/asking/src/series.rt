// A sum of a row of numbers in which each one's place counts.
use crate::show;
use std::io::{self, Write};

// The sum with one number more.
pub fn add(sum: u64, x: u64) -> u64 {
    (sum % 4294967296 * 65599 + x % 1099511627776) % 4294967291
}

pub fn end(out: &mut impl Write, sum: u64) -> io::Result<()> {
    show::tag(out, b'=')?;
    show::wide(out, sum)
}

// The sum of a row's items at the places from `from` to the one before `to`.
pub fn row<F: Fn(usize) -> u64>(
    out: &mut impl Write,
    from: usize,
    to: usize,
    item: F,
) -> io::Result<()>
    requires { F.IsAlwaysCallable item }
{
    let mut sum = 0;
    for i in from..to {
        sum = add(sum, item(i));
    }
    end(out, sum)
}
