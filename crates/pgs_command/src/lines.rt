//! Whole lines.
ghost use Rattle.std.specs.Prelude.{◌≡◌, ℕ, Bool, List, IfOk, IfErr, IfSome};
ghost use Rattle.pgs_io.specs.Lines.{IsKept};
ghost use Rattle.pgs_command.specs.Lines.{prefix_of, session_of, text_of, is_comment, short_command, said, read_line};
ghost use Rattle.pgs_command.specs.Ranges.{IsSession, IsInRange};

use crate::commands::{Command, read_command};

/// A line of a script.
#[derive(Debug, Drop, PartialEq, Eq)]
pub struct Line<'a> {
    /// The session that performs the command, 1 to 8.
    pub session: u8,
    pub command: Command<'a>,
}

/// A line that isn't in the grammar.
#[derive(Clone, Copy, Debug, PartialEq, Eq)]
pub struct BadLine {
    /// The session that the line names by its prefix, and 1 without one.
    pub session: u8,
}

/// What a line says.
///
/// `kept` are the first 512 bytes of the line, and `long` says whether it has more, as a reader of lines tells them.
pub fn parse_line(kept: &[u8], long: bool) -> Result<Line<'_>, BadLine>
    ensures read { (line : List ℕ) → IsKept line kept.now long → result ≡ read_line line }
    ensures session { IfOk result (λ line. IsSession line.session) }
    ensures in_range { IfOk result (λ line. IsInRange line.command) }
    ensures bad_session { IfErr result (λ bad. IsSession bad.session) }
{
    let session = session_of(kept);
    match parse_command(kept, long) {
        Some(command) => Ok(Line { session, command }),
        None => Err(BadLine { session }),
    }
}

/// The command of a line, or `None` where the line isn't in the grammar. It is what `parse_line` tells besides the session.
///
/// `kept` are the first 512 bytes of the line, and `long` says whether it has more.
pub fn parse_command(kept: &[u8], long: bool) -> Option<Command<'_>>
    ensures read { (line : List ℕ) → IsKept line kept.now long → said (session_of line) result ≡ read_line line }
    ensures in_range { IfSome result IsInRange }
{
    let mut command = None;
    parse_command_into(kept, long, &mut command);
    command
}

/// Writes the command of a line into its place: what `parse_command` answers, which is moved nowhere.
#[inline(always)]
pub fn parse_command_into<'a>(kept: &'a [u8], long: bool, command: &mut Option<Command<'a>>)
    ensures read { (line : List ℕ) → IsKept line kept.now long → said (session_of line) command.new ≡ read_line line }
    ensures in_range { IfSome command.new IsInRange }
{
    if long {
        *command = None;
    } else {
        read_short(kept, command);
    }
}

/// The session that a line names, of which these are the first 512 bytes: 1 where it has no prefix.
pub fn parse_session(kept: &[u8]) -> u8
    ensures read { (line : List ℕ) (long : Bool) → IsKept line kept.now long → result ≡ session_of line }
    ensures session { IsSession result }
{
    session_of(kept)
}

/// The session that a line names: 1 where it has no prefix.
fn session_of(line: &[u8]) -> u8
    ensures value { result ≡ session_of line.now }
    ensures session { IsSession result }
{
    match prefix(line) {
        Some(session) => session,
        None => 1,
    }
}

/// The session of a prefix: `@`, a digit from 1 to 8 and a space.
fn prefix(line: &[u8]) -> Option<u8>
    ensures value { result ≡ prefix_of line.now }
    ensures session { IfSome result (λ n. IsSession n) }
{
    match line {
        [b'@', digit, b' ', ..] if b'1' <= *digit && *digit <= b'8' => Some(*digit - b'0'),
        _ => None,
    }
}

/// Writes the command of a line of at most 512 bytes.
fn read_short<'a>(line: &'a [u8], command: &mut Option<Command<'a>>)
    ensures value { command.new ≡ short_command line.now }
    ensures in_range { IfSome command.new (λ command. IsInRange command) }
{
    if is_comment(line) {
        *command = Some(Command::Nothing);
    } else {
        read_command(text_of(line), command);
    }
}

/// What stands behind the prefix.
fn text_of(line: &[u8]) -> &[u8]
    ensures { result.now ≡ text_of line.now }
{
    if prefix(line).is_some() {
        &line[3..]
    } else {
        line
    }
}

/// An empty line, or one that begins with `#`.
fn is_comment(line: &[u8]) -> bool
    ensures { result ≡ is_comment line.now }
{
    match line {
        [] => true,
        [first, ..] => *first == b'#',
    }
}
