//! Three small programs in one, which show how the libraries are used: the first judges the certificate file on
//! standard input, the second analyses a network of routers, and the third has two drivers step a simulated world.
#![tactic(auto)]

mod analysing;
mod drivers;
mod driving;
mod failures;
mod filed_numbers;
mod judging;
mod routers;

use crate::analysing::print_failures;
use crate::driving::print_driven;
use crate::judging::print_judged;
use anyhow::Result;
use std::io;

fn main(rt: HostRuntime) -> Result<()> {
    let text = io::read_to_string(rt.alloc(), rt.reader())?;
    print_judged(&rt, rt.alloc(), &text)?;
    print_failures(&rt, rt.alloc())?;
    print_driven(&rt, rt.alloc())
}
