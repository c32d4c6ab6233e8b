// Writing a row to standard output.
ghost use Rattle.std.specs.Prelude.{◌≤◌, length, IfOk};

use crate::rows::Row;
use std::io::Result;

// Writes positions as the paper does, a list in square brackets, and hands back the values behind them.
fn positions<'a>(rt: &impl Print, count: u8, values: &'a [u8]) -> Result<&'a [u8]>
    ensures { IfOk result (λ behind. length behind.now ≤ length values.now) }
{
    let mut rest = values;
    for place in 0..count {
        if place != 0 {
            print!(rt; ",")?;
        }
        match rest {
            [] => {}
            [5, inner, behind @ ..] => {
                print!(rt; "[")?;
                rest = positions(rt, *inner, behind)?;
                print!(rt; "]")?;
            }
            [value, behind @ ..] => {
                print!(rt; "{value}")?;
                rest = behind;
            }
        }
    }
    Ok(rest)
}

// Writes the plan of a row.
fn plan(rt: &impl Print, row: Row) -> Result<()> {
    let Row { rules, locks, .. } = row;
    if cars::multiring(rules) {
        print!(rt; "multi")?;
    }
    print!(rt; "ring, rules {rules}, <")?;
    positions(rt, row.positions, row.values)?;
    print!(rt; ">, locks {locks}")
}

// Writes a row: its plan, the states found, their number elsewhere, how the tests went.
pub fn row(rt: &impl Print, row: Row, found: usize, elsewhere: &str, tests: &str) -> Result<()> {
    let states = row.states;
    plan(rt, row)?;
    println!(rt; ": states {found}, {elsewhere} {states}; {tests}")
}
