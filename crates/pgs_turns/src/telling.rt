//! What is told of a run of the script that is made, and of one of a sweep.
ghost use Rattle.std.specs.Prelude.{◌≡◌, ◌==◌, ◌++◌, ◌+◌, ◌≤◌, codes, decimal, if◌then◌else◌};
ghost use Rattle.arrayvec.specs.ArrayVec.{array_vec_len};
ghost use Rattle.session_rules.specs.Modes.{numbers};
ghost use Rattle.pgs_turns.specs.Sweeping.{run_numbers};

use crate::pieces::{put, put_counted};
use arrayvec::ArrayVec;

/// The line that tells how many lines were performed, and how many events, ERROR events and fallible calls there were.
pub(crate) fn summary(lines: u64, events: u64, errors: u64, calls: u64) -> ArrayVec<u8, 128>
    ensures { result.items ≡ numbers lines events errors calls }
{
    let mut line = ArrayVec::new();
    put_counted(&mut line, b"generated ", lines);
    put_counted(&mut line, b" lines, ", events);
    put_counted(&mut line, b" events, ", errors);
    put_counted(&mut line, b" errors, ", calls);
    put(&mut line, b" calls\n");
    line
}

/// The line that tells of a run of a sweep: which call was to fail, or how many fallible calls there were where none was; and how many
/// ERROR events there were.
pub fn run_line(fail: u64, calls: u64, errors: u64) -> ArrayVec<u8, 64>
    ensures { result.items ≡ run_numbers fail calls errors }
{
    let mut line = ArrayVec::new();
    put_call(&mut line, fail, calls);
    put_counted(&mut line, b" errors ", errors);
    put(&mut line, b"\n");
    line
}

/// Which call was to fail, or how many there were where none was.
fn put_call(line: &mut ArrayVec<u8, 64>, fail: u64, calls: u64)
    requires { array_vec_len line.old ≤ 20 }
    ensures text { line.new.items ≡ line.old.items ++ (if fail == 0 then codes "calls " ++ decimal calls else codes "fail " ++ decimal fail) }
    ensures short { array_vec_len line.new ≤ array_vec_len line.old + 26 }
{
    if fail == 0 {
        put_counted(line, b"calls ", calls);
    } else {
        put_counted(line, b"fail ", fail);
    }
}
