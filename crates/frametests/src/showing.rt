// What an accepted frame shows, one record after another, and what a refused one is refused with, in words.
use super::building::{GAPS, ROWS, SAMPLES, path, set};
use clause::{Bend, CapClause};
use frame::{Layer, PathFrame, read};
use std::alloc::{AllocError, Global};
use std::test::Fail;

// How many samples, gaps and rows come, and the ups of the gaps as digits; nothing where the frame is refused.
fn shown(bytes: &[u8]) -> Option<(usize, usize, usize, u32)> {
    if read(bytes).is_err() {
        return None;
    }
    let frame = PathFrame::over(bytes);
    let mut ups = 0u32;
    for gap in frame.gaps() {
        ups = ups.saturating_mul(10).saturating_add(gap.up);
    }
    Some((
        frame.samples().count(),
        frame.gaps().count(),
        frame.rows().count(),
        ups,
    ))
}

#[test]
fn records_come_in_order(rt: HostRuntime) -> Result<(), Fail> {
    let mut bytes = path(rt.alloc())?;
    set(&mut bytes, GAPS + 7, 1);
    set(&mut bytes, GAPS + 19, 2);
    set(&mut bytes, GAPS + 31, 3);
    assert_eq!(rt; shown(bytes.as_slice()), Some((4, 3, 2, 123)));
    Ok(())
}

// The fault, in words, of a legal frame with one byte changed; of no fault "accepted".
fn words(heap: Global, at: usize, to: u8) -> Result<String, AllocError> {
    let mut bytes = path(heap)?;
    set(&mut bytes, at, to);
    match read(bytes.as_slice()) {
        Ok(_) => format!(in heap; "accepted"),
        Err(fault) => format!(in heap; "{fault}"),
    }
}

#[test]
fn faults_in_words(rt: HostRuntime) -> Result<(), Fail> {
    let heap = rt.alloc();
    let said = words(heap, 0, 2)?;
    assert_eq!(rt; said.as_str(), "the version, byte 0, must be 1");
    let said = words(heap, SAMPLES + 1, 8)?;
    assert_eq!(rt; said.as_str(), "a class cap or floor must be at most 7");
    let said = words(heap, GAPS + 3, 1)?;
    assert_eq!(rt; said.as_str(), "a gap's zero bytes must be zero");
    let said = words(heap, ROWS + 7, 0)?;
    assert_eq!(rt; said.as_str(), "a torque row's d may not be zero");
    Ok(())
}

#[test]
fn clauses_and_layers_in_words(rt: HostRuntime) -> Result<(), Fail> {
    let heap = rt.alloc();
    let bend = Bend {
        top_speed: 1.5,
        curvature: -0.25,
    };
    let said = format!(in heap; "{}, {}", CapClause::Bend(bend), CapClause::Fixed(7))?;
    assert_eq!(rt;
        said.as_str(),
        "bend, at most 1.5 m/s, curvature -0.25 1/m, fixed at 7"
    );
    let said = format!(in heap; "{}, {}", CapClause::Free, CapClause::Straight(2.5))?;
    assert_eq!(rt; said.as_str(), "free, straight, at most 2.5 m/s");
    let said = format!(in heap; "{} {}", Layer::Torque, Layer::Memory)?;
    assert_eq!(rt; said.as_str(), "torque memory");
    let said = format!(in heap; "{} {} {}", Layer::Frame, Layer::Sample, Layer::Gap)?;
    assert_eq!(rt; said.as_str(), "frame sample gap");
    Ok(())
}
