//! How a call ends.

/// How a call ended, and what is in its room. The statuses are those with which `topotool` exits, save that 6 says that
/// the room is too small.
#[repr(C)]
#[derive(Clone, Copy, PartialEq, Eq, Debug)]
pub struct CallOutcome {
    /// 0 done, 1 not canonical, 2 wrong usage, 4 a text is refused, 5 out of memory, 6 the room is too small.
    pub status: u32,
    /// The fault's number, from 1 to 21, or 0 where there is none.
    pub fault: u32,
    /// The place of the text that is refused, or of the layer's name that is not UTF-8, from 0.
    pub place: usize,
    /// The length in bytes of the answer, or of the fault's path. If it is more than the room has, the room is as it was.
    pub length: usize,
}
