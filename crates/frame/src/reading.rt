// Reading a path frame: every question in its order, the first "no" refuses.
ghost use Rattle.std.specs.Prelude.{◌≡◌, ◌≤◌, length};
ghost use Rattle.frame.specs.Layout.{frame_size_of};
ghost use Rattle.frame.specs.Paths.{header_at, fields_read, header_read, body_read, header_of, path_read};
ghost use Rattle.frame.specs.Records.{done};

use super::body::Body;
use super::fault::FrameFault;
use super::header::Header;
use super::layout;
use super::records::check_records;
use caps::MOST;
use record::{Gap, Sample, TorqueRow};
use words::{be16, be32};

// The header's fields as they lie.
pub(crate) fn header_at(bytes: &[u8]) -> Header
    requires { 15 ≤ length bytes.now }
    ensures { result ≡ header_at bytes.now }
{
    Header {
        samples: be16(bytes, layout::SAMPLES_AT),
        spacing: be16(bytes, layout::SPACING_AT),
        lateral: be32(bytes, layout::LATERAL_AT),
        rows: be16(bytes, layout::ROWS_AT),
    }
}

// What is asked of the header's fields in a frame of so many bytes.
fn ask_fields(size: usize, header: Header) -> Result<Header, FrameFault>
    ensures { result ≡ fields_read size header }
{
    if !(layout::LEAST_SAMPLES..=layout::MOST_SAMPLES).contains(&header.samples) {
        return Err(FrameFault::SampleCount);
    }
    if header.spacing < 1 {
        return Err(FrameFault::Spacing);
    }
    if header.lateral > MOST {
        return Err(FrameFault::Lateral);
    }
    if header.rows > layout::MOST_ROWS {
        return Err(FrameFault::RowCount);
    }
    if size != header.frame_size() {
        return Err(FrameFault::Size);
    }
    Ok(header)
}

fn read_header(bytes: &[u8]) -> Result<Header, FrameFault>
    ensures { result ≡ header_read bytes.now }
{
    let [version, l3, l2, l1, l0, body @ ..] = bytes else {
        return Err(FrameFault::TooShort);
    };
    if *version != layout::VERSION {
        return Err(FrameFault::Version);
    }
    let length = u32::from_be_bytes([*l3, *l2, *l1, *l0]) as usize;
    if length != body.len() {
        return Err(FrameFault::Length);
    }
    if length < layout::LEAST_BODY {
        return Err(FrameFault::ShortBody);
    }
    ask_fields(bytes.len(), header_at(bytes))
}

// Asks the records behind a header: samples, then gaps, then torque rows.
fn ask_records(body: Body<'_>) -> Result<(), FrameFault>
    ensures { result ≡ done (body_read body.entry.bytes.now body.entry.header) }
{
    check_records::<Sample, _, _>(&body)?;
    check_records::<Gap, _, _>(&body)?;
    check_records::<TorqueRow, _, _>(&body)?;
    Ok(())
}

/// Reads a path frame: the header of an accepted frame, whose records `PathFrame` then hands out, or the one refusal.
#[tactic(auto, using(crate::proofs::Accepted::header_facts, crate::proofs::Whole::all_records))]
pub fn read(bytes: &[u8]) -> Result<Header, FrameFault>
    ensures { result ≡ header_of (path_read bytes.now) }
{
    let header = read_header(bytes)?;
    ask_records(Body { bytes, header })?;
    Ok(header)
}
