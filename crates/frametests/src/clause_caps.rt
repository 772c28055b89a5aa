// Caps, exactly, and clauses at their extremes.
use super::building::cap;
use clause::ClauseKind::{Bend, Fixed, Free, Straight};
use std::test::Fail;

const MOST: u32 = 2147483647;

#[test]
fn top_speeds_are_exact(rt: HostRuntime) -> Result<(), Fail> {
    let heap = rt.alloc();
    assert_eq!(rt;
        cap(heap, 0, Straight, 0x3e80_0000, 0)?,
        Some(4096),
        "0.25 m/s"
    );
    assert_eq!(rt;
        cap(heap, 0, Straight, 0x3dcc_cccd, 0)?,
        Some(655),
        "about a tenth"
    );
    assert_eq!(rt;
        cap(heap, 0, Straight, 0x4335_0000, 0)?,
        Some(2147024896),
        "181 m/s"
    );
    assert_eq!(rt;
        cap(heap, 0, Straight, 0x4336_0000, 0)?,
        Some(MOST),
        "182 m/s"
    );
    assert_eq!(rt; cap(heap, 0, Free, 0, 0)?, Some(MOST));
    assert_eq!(rt; cap(heap, 0, Fixed, 12345, 0)?, Some(12345));
    Ok(())
}

#[test]
fn top_speeds_at_extremes(rt: HostRuntime) -> Result<(), Fail> {
    let heap = rt.alloc();
    assert_eq!(rt;
        cap(heap, 0, Straight, 0x8000_0000, 0)?,
        Some(0),
        "minus zero"
    );
    assert_eq!(rt;
        cap(heap, 0, Straight, 0x0000_0001, 0)?,
        Some(0),
        "the least subnormal"
    );
    assert_eq!(rt;
        cap(heap, 0, Straight, 0x7f7f_ffff, 0)?,
        Some(MOST),
        "the largest finite"
    );
    assert_eq!(rt; cap(heap, 0, Straight, 0x7f80_0000, 0)?, None, "infinity");
    assert_eq!(rt;
        cap(heap, 0, Straight, 0xff80_0000, 0)?,
        None,
        "minus infinity"
    );
    assert_eq!(rt; cap(heap, 0, Straight, 0x7fc0_0000, 0)?, None, "no number");
    assert_eq!(rt;
        cap(heap, 0, Straight, 0x8000_0001, 0)?,
        None,
        "just below zero"
    );
    assert_eq!(rt; cap(heap, 0, Fixed, MOST, 0)?, Some(MOST));
    assert_eq!(rt; cap(heap, 0, Fixed, 0x8000_0000, 0)?, None);
    Ok(())
}

#[test]
fn bends_are_exact(rt: HostRuntime) -> Result<(), Fail> {
    let heap = rt.alloc();
    let one = 0x3f80_0000;
    let fast = 0x4336_0000;
    assert_eq!(rt;
        cap(heap, 131072, Bend, one, 0x4040_0000)?,
        Some(43690),
        "1 m/s at 3 1/m"
    );
    assert_eq!(rt;
        cap(heap, 131072, Bend, one, 0xc040_0000)?,
        Some(43690),
        "the other way"
    );
    assert_eq!(rt;
        cap(heap, 131072, Bend, one, 0x3f80_0000)?,
        Some(65536),
        "the speed is less"
    );
    assert_eq!(rt; cap(heap, 0, Bend, fast, 0)?, Some(MOST), "no curvature");
    assert_eq!(rt;
        cap(heap, 0, Bend, fast, 0x8000_0000)?,
        Some(MOST),
        "minus no curvature"
    );
    assert_eq!(rt; cap(heap, 0, Bend, fast, 1)?, Some(0), "no lateral number");
    assert_eq!(rt;
        cap(heap, 1, Bend, fast, 1)?,
        Some(MOST),
        "the least curvature"
    );
    assert_eq!(rt;
        cap(heap, MOST, Bend, fast, 0x7f7f_ffff)?,
        Some(0),
        "the largest"
    );
    assert_eq!(rt;
        cap(heap, 1, Bend, fast, 0x7f80_0000)?,
        None,
        "infinite curvature"
    );
    Ok(())
}
