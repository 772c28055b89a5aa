// The table that a path settles on, a line to a sample.
use super::bounds::BoundName;
use super::live::Live;
use binding::{class_bound, speed_bound};
use grade::Grade;
use setpoint::sent_speed;
use std::io;

// Squared speeds are in units of 1/65536 m²/s², so speeds in units of 1/256 m/s.
const UNITS_PER_METRE: f64 = 256.0;

const HEADER: &str = "sample  class  squared speed       m/s   sent  class held by  speed held by";

pub fn print_table(rt: &HostRuntime, live: &Live<'_>) -> io::Result<()> {
    println!(rt; "{HEADER}")?;
    let classes = live.of_samples(live.classes.as_slice());
    let speeds = live.of_samples(live.speeds.as_slice());
    for (at, (class, speed)) in classes.iter().zip(speeds.iter()).enumerate() {
        let held_class = BoundName(class_bound(live.frame, classes, at));
        let held_speed = BoundName(speed_bound(live.frame, classes, speeds, at));
        let class = class.value.rank();
        let squared = speed.value.rank();
        let metres = (squared as f64).sqrt() / UNITS_PER_METRE;
        let sent = sent_speed(speed.value);
        println!(rt;
            "{at:>6}  {class:>5}  {squared:>13}  {metres:>8.3}  {sent:>5}  {held_class:<13}  {held_speed}"
        )?;
    }
    Ok(())
}
