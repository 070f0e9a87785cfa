// Reads a ledger from standard input, does each line through the library, and prints one answer for each.
#![tactic(auto)]

mod answers;
mod commands;
mod desk;
mod failures;
mod fitting;
mod input;
mod reading;
mod requests;
mod running;

use running::run;
use std::io;

fn main(rt: HostRuntime) -> io::Result<()> {
    run(&rt)
}
