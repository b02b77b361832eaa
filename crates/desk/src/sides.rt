// One side of the desk: a word for each place.
ghost use Rattle.std.specs.Prelude.{◌≡◌, ◌≤◌, length};
ghost use Rattle.desk.specs.Sides.{
  frame_of,
  tick_of,
  place_of,
  unless,
  without,
  give_in,
  withdraw_from,
  SideIs,
};

use crate::answers::Why;

const FRAME: u64 = 4294967296;

pub(crate) fn frame_of(w: u64) -> u32
    ensures { result ≡ frame_of w }
{
    (w / FRAME) as u32
}

pub(crate) fn tick_of(w: u64) -> u32
    ensures { result ≡ tick_of w }
{
    (w % FRAME) as u32
}

// The first place with this frame; how many there are, where none has it.
pub(crate) fn place_of(row: &[u64], frame: u32) -> usize
    ensures value { result ≡ place_of frame row.now }
    ensures upper_bound { result ≤ length row.now }
{
    for i in 0..row.len() {
        if frame_of(row[i]) == frame {
            return i;
        }
    }
    row.len()
}

fn unless_of(w: u64, frame: u32) -> u64
    ensures { result ≡ unless frame w }
{
    if frame_of(w) == frame {
        return 0;
    }
    w
}

// No place has this frame any more.
pub(crate) fn clear(row: &mut [u64], frame: u32)
    ensures { row.new ≡ without frame row.old }
{
    for i in 0..row.len() {
        row[i] = unless_of(row[i], frame);
    }
}

// The frame goes to the first free place.
pub(crate) fn give_in(row: &mut [u64], frame: u32, tick: u32) -> Result<(), Why>
    ensures { SideIs (give_in frame tick row.old) row.new result }
{
    if place_of(row, frame) < row.len() {
        return Err(Why::Waits);
    }
    let free = place_of(row, 0);
    if row.len() <= free {
        return Err(Why::Full);
    }
    row[free] = frame as u64 * FRAME + tick as u64;
    Ok(())
}

// The frame leaves.
pub(crate) fn withdraw_from(row: &mut [u64], frame: u32) -> Result<(), Why>
    ensures { SideIs (withdraw_from frame row.old) row.new result }
{
    if row.len() <= place_of(row, frame) {
        return Err(Why::Away);
    }
    clear(row, frame);
    Ok(())
}
