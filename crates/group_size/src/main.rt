//! Prints how many bytes a group takes, at each pair of clock rule and kind of mark.
#![tactic(auto)]

use group::group::Group;
use stamps::each::Each;
use stamps::hybrid::Hybrid;
use stamps::one::One;
use stamps::raw::Raw;
use std::mem::size_of;

fn main(rt: HostRuntime) -> anyhow::Result<()> {
    println!(rt; "raw, one: {} bytes", size_of::<Group<Raw, One>>())?;
    println!(rt; "raw, each: {} bytes", size_of::<Group<Raw, Each>>())?;
    println!(rt; "hybrid, one: {} bytes", size_of::<Group<Hybrid, One>>())?;
    println!(rt; "hybrid, each: {} bytes", size_of::<Group<Hybrid, Each>>())?;
    Ok(())
}
