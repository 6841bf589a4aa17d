//! A caller that proves from the contracts of `Feed` alone which lines it got.
ghost use Rattle.std.specs.Prelude.{◌≡◌, ◌≤◌, ◌^◌, ℕ, List, length};
ghost use Rattle.pgs_io.specs.Feeding.{FedAll, FedEnded, FedLimit};
ghost use Rattle.pgs_io.specs.FedAnswers.{OnEnd, OnFault, OnTooLong};

use pgs_io::{Fed, Feed, LineBuf, Source};

/// Counts the lines of a source of at most `limit` bytes, and answers with what they ended.
pub fn count_lines<S: Source>(src: &mut S, limit: u32) -> (u32, Fed)
    requires some { 1 ≤ limit }
    requires most { limit ≤ 2 ^ 24 }
    ensures end { OnEnd result.1 ((lines : List (List ℕ)) × FedAll limit (S.left src.old) (S.left src.new) lines × (result.0 ≡ length lines)) }
    ensures fault { OnFault result.1 ((lines : List (List ℕ)) × FedEnded limit (S.left src.old) (S.left src.new) lines × (result.0 ≡ length lines)) }
    ensures too_long { OnTooLong result.1 ((lines : List (List ℕ)) × FedLimit limit (S.left src.old) (S.left src.new) lines × (result.0 ≡ length lines)) }
{
    let mut feed = Feed::new(limit);
    let mut buf = LineBuf::new();
    let mut count = 0;
    loop {
        match feed.line(src, &mut buf) {
            Fed::Line { .. } => count += 1,
            Fed::End => return (count, Fed::End),
            Fed::Fault => return (count, Fed::Fault),
            Fed::TooLong => return (count, Fed::TooLong),
        }
    }
}
