//! A line of text, and how it is written out.
ghost use Rattle.base.specs.Questions.{Writes};

use arrayvec::ArrayString;
use base::fault::Fault;
use base::room::ask_room;

// A line of at most 24 bytes. So many has the longest, `plan 255 jobs 255 crews` with its line feed.
pub(crate) type Line = ArrayString<24>;

// Writes a line to the front of `target`, and answers how many bytes that is.
// A target that is too short is refused, and is left as it was.
pub(crate) fn write_line(line: &Line, target: &mut [u8]) -> Result<usize, Fault>
    ensures { Writes line.now.bytes target.old target.new result }
{
    let needed = line.len();
    // By `as`: there is no `From` of `usize`, and a line has at most 24 bytes.
    ask_room(target, needed as u32)?;
    target[0..needed].copy_from_slice(line.as_bytes());
    Ok(needed)
}
