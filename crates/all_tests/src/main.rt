//! Checks the cases of every test crate, each in the folder of its name in `data/`: those that read, those of layout,
//! those that set, and those of commands. It prints for each table how many cases hold, and each case that doesn't, and
//! fails if there is one.
#![tactic(auto)]

use abcps_commands::check_commands;
use layout_tests::check_layout;
use reading_tests::check_reading;
use setting_tests::check_setting;
use std::io;

fn main(rt: HostRuntime) -> io::Result<()> {
    let tally = check_reading(&rt)?
        .and(check_layout(&rt)?)
        .and(check_setting(&rt)?)
        .and(check_commands(&rt)?);
    println!(rt; "{} of {} cases hold", tally.holding, tally.all())?;
    if tally.failing == 0 {
        Ok(())
    } else {
        Err(io::Error::other("some cases do not hold"))
    }
}
