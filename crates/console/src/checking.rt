// `furqyzet check`: what a frame holds, or why it is refused.
use super::files::load;
use super::reading::accept;
use super::stop::Stop;
use frame::{Header, PathFrame};
use std::io;

pub fn check(rt: &HostRuntime, path: &str) -> Result<(), Stop> {
    let bytes = load(rt, path)?;
    let frame = accept(rt, bytes.as_slice())?;
    print_header(rt, frame.header())?;
    print_samples(rt, &frame)?;
    print_gaps(rt, &frame)?;
    print_rows(rt, &frame)?;
    Ok(())
}

fn print_header(rt: &HostRuntime, header: Header) -> io::Result<()> {
    let Header {
        samples,
        spacing,
        lateral,
        rows,
    } = header;
    let gaps = samples.saturating_sub(1);
    println!(rt; "accepted: {samples} samples, {gaps} gaps, {rows} torque rows")?;
    println!(rt; "spacing h = {spacing}, lateral number a = {lateral} (in 1/65536 m/s²)")
}

fn print_samples(rt: &HostRuntime, frame: &PathFrame<'_>) -> io::Result<()> {
    println!(rt;
        "sample  class floor..cap  speed floor..cap (in 1/65536 m²/s²)          q  clause"
    )?;
    for (index, sample) in frame.samples().enumerate() {
        let cap = frame.speed_cap(index).unwrap_or(0);
        println!(rt;
            "{index:>6}  {:>11}..{:<3}  {:>21}..{cap:<10}  {:>19}  {}",
            sample.class_floor, sample.class_cap, sample.speed_floor, sample.q, sample.clause
        )?;
    }
    Ok(())
}

fn print_gaps(rt: &HostRuntime, frame: &PathFrame<'_>) -> io::Result<()> {
    println!(rt; "   gap  rise  fall          up        down")?;
    for (index, gap) in frame.gaps().enumerate() {
        println!(rt;
            "{index:>6}  {:>4}  {:>4}  {:>10}  {:>10}",
            gap.rise, gap.fall, gap.up, gap.down
        )?;
    }
    Ok(())
}

fn print_rows(rt: &HostRuntime, frame: &PathFrame<'_>) -> io::Result<()> {
    if frame.header().rows == 0 {
        return Ok(());
    }
    println!(rt; "   row   gap          d          c          g         lo         hi")?;
    for (index, row) in frame.rows().enumerate() {
        println!(rt;
            "{index:>6}  {:>4}  {:>9}  {:>9}  {:>9}  {:>9}  {:>9}",
            row.gap, row.d, row.c, row.g, row.lo, row.hi
        )?;
    }
    Ok(())
}
