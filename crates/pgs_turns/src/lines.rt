//! What the lines of a script ask for.
ghost use Rattle.std.specs.Prelude.{◌≡◌, ℕ, List, None, IfSome};
ghost use Rattle.pgs_io.specs.Lines.{IsKept};
ghost use Rattle.pgs_command.specs.Lines.{is_comment, read_line};
ghost use Rattle.pgs_command.specs.Ranges.{IsInRange, IsSession};
ghost use Rattle.pgs_turns.specs.Script.{said_in};

use pgs_command::{Command, parse_command_into, parse_session};

/// What a line asks for.
#[derive(Drop)]
pub struct Said<'a> {
    /// The session that the line is for, from 1.
    pub session: u8,
    /// What that is to perform, or `None` where the line is bad.
    pub command: Option<Command<'a>>,
}

impl<'a> Said<'a> {
    /// What stands where a line is to be read: a bad line of session 1.
    pub fn unread() -> Said<'a>
        ensures { result ≡ record { session = 1; command = None } }
    {
        Said {
            session: 1,
            command: None,
        }
    }
}

/// Writes what a line asks for into its place.
///
/// `kept` are the first 512 bytes of the line, and `long` says whether it has more.
#[inline(never)]
pub fn read_line<'a>(kept: &'a [u8], long: bool, said: &mut Said<'a>)
    ensures read { (line : List ℕ) → IsKept line kept.now long → said.new ≡ said_in (read_line line) }
    ensures session { IsSession said.new.session }
    ensures in_range { IfSome said.new.command IsInRange }
{
    said.session = parse_session(kept);
    parse_command_into(kept, long, &mut said.command);
}

/// Whether the line is an empty one or a comment, which asks for nothing. Of the line these are the first bytes.
pub fn is_comment(kept: &[u8]) -> bool
    ensures { result ≡ is_comment kept.now }
{
    match kept {
        [] => true,
        [first, ..] => *first == b'#',
    }
}
