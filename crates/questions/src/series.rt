// Rows of numbers, shown by their changes and by their sum.
use asking::{series, show};
use std::io::{self, Write};

// The items at the places from `from` to the one before `to`: where they change, and to what.
pub fn changes<W: Write, F: Fn(usize) -> u64, G: Fn(&mut W, u64) -> io::Result<()>>(
    out: &mut W,
    from: usize,
    to: usize,
    item: F,
    shown: G,
) -> io::Result<()>
    requires items { F.IsAlwaysCallable item }
    requires shows { G.IsAlwaysCallable shown }
{
    let mut last = 18446744073709551615;
    let mut sum = 0;
    for i in from..to {
        let x = item(i);
        if x != last {
            show::size(out, i)?;
            shown(out, x)?;
        }
        last = x;
        sum = series::add(sum, x);
    }
    series::end(out, sum)
}
