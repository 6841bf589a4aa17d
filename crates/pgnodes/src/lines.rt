//! What a line asks for.
ghost use Rattle.std.specs.Prelude.{◌≡◌, ◌≢◌, ◌≤◌, ◌++◌, ◌∷◌, ℕ, All, IfSome, IfNone, List};
ghost use Rattle.std.specs.Fmt.{decimal};
ghost use Rattle.pgs_io.specs.Lines.{IsKept};
ghost use Rattle.pgnodes.specs.Lines.{space, AsksFor, IsSkipped, IfAggregate, IfBad};
ghost use Rattle.pgnodes.specs.declared.lines.Aggregate.{Aggregate as Asks};
ghost use Rattle.pgnodes.specs.declared.lines.Asked.TheVariants.{Nothing};

use pgs_io::{next_token, number};

/// The largest number of an object.
pub const MOST_OBJECT: u32 = 1_000_000;

/// The most rows of an aggregate.
pub const MOST_ROWS: u32 = 100_000;

/// The fewest groups that its rows may fall into.
pub const LEAST_GROUPS: u32 = 1;

/// The most groups that its rows may fall into.
pub const MOST_GROUPS: u32 = 1_000;

/// The fewest groups that it may hold at once.
pub const LEAST_BUDGET: u32 = 64;

/// The most groups that it may hold at once.
pub const MOST_BUDGET: u32 = 65_536;

/// An aggregate that a line asks for: `agg OBJECT ROWS GROUPS BUDGET`.
#[derive(Clone, Copy, PartialEq, Eq, Debug)]
pub struct Aggregate {
    /// What the rows are made from: 0 to 1,000,000.
    pub object: u32,
    /// How many rows there are: 0 to 100,000.
    pub rows: u32,
    /// How many groups they may fall into: 1 to 1,000.
    pub groups: u32,
    /// How many groups are held at once: 64 to 65,536.
    pub budget: u32,
}

/// What a line asks for.
#[derive(Clone, Copy, PartialEq, Eq, Debug)]
pub enum Asked {
    /// The line is empty, or a comment, which begins with `#`.
    Nothing,
    /// An aggregate.
    Aggregate(Aggregate),
    /// Any other line.
    Bad,
}

/// What a line asks for, of which `kept` are the first 512 bytes. It is `long` where it has more.
pub fn read_asked(kept: &[u8], long: bool) -> Asked
    ensures nothing { (line : List ℕ) → IsKept line kept.now long → result ≡ Nothing → IsSkipped line }
    ensures aggregate { (line : List ℕ) → IsKept line kept.now long → IfAggregate result (λ a. AsksFor line a) }
    ensures bad { (line : List ℕ) → IsKept line kept.now long → IfBad result ((¬ IsSkipped line) × ((a : Asks) → ¬ AsksFor line a)) }
{
    let Some(first) = kept.first() else {
        return Asked::Nothing;
    };
    if *first == b'#' {
        return Asked::Nothing;
    }
    if long {
        return Asked::Bad;
    }
    match read_aggregate(kept) {
        Some(aggregate) => Asked::Aggregate(aggregate),
        None => Asked::Bad,
    }
}

// The aggregate that a whole line asks for.
fn read_aggregate(line: &[u8]) -> Option<Aggregate>
    ensures some { IfSome result (λ a. AsksFor line.now a) }
    ensures none { IfNone result ((a : Asks) → ¬ AsksFor line.now a) }
{
    let [b'a', b'g', b'g', b' ', numbers @ ..] = line else {
        return None;
    };
    let (object, numbers) = number_before(numbers, 0, MOST_OBJECT)?;
    let (rows, numbers) = number_before(numbers, 0, MOST_ROWS)?;
    let (groups, last) = number_before(numbers, LEAST_GROUPS, MOST_GROUPS)?;
    let budget = number_from(last, LEAST_BUDGET, MOST_BUDGET)?;
    Some(Aggregate {
        object,
        rows,
        groups,
        budget,
    })
}

// The number from `least` to `most` before the first space, and the bytes behind that.
fn number_before(text: &[u8], least: u32, most: u32) -> Option<(u32, &[u8])>
    ensures some { IfSome result (λ it. (text.now ≡ decimal it.0 ++ space ∷ it.1.now) × (least ≤ it.0) × (it.0 ≤ most)) }
    ensures none { IfNone result ((n : ℕ) (rest : List ℕ) → least ≤ n → n ≤ most → text.now ≢ decimal n ++ space ∷ rest) }
{
    let (word, behind) = split_word(text)?;
    let value = number_from(word, least, most)?;
    Some((value, behind))
}

// The bytes before the first space, and those behind it, where there is one.
fn split_word(text: &[u8]) -> Option<(&[u8], &[u8])>
    ensures some { IfSome result (λ parts. (text.now ≡ parts.0.now ++ space ∷ parts.1.now) × All (λ b. b ≢ space) parts.0.now) }
    ensures none { IfNone result (All (λ b. b ≢ space) text.now) }
{
    let (word, behind) = next_token(text);
    if word.len() < text.len() {
        Some((word, behind))
    } else {
        None
    }
}

// The number from `least` to `most` that the word writes in decimal digits.
fn number_from(word: &[u8], least: u32, most: u32) -> Option<u32>
    ensures some { IfSome result (λ n. (word.now ≡ decimal n) × (least ≤ n) × (n ≤ most)) }
    ensures none { IfNone result ((n : ℕ) → least ≤ n → n ≤ most → word.now ≢ decimal n) }
{
    let value = number(word, most as u64)?;
    if value < least as u64 {
        return None;
    }
    Some(value as u32)
}

#[test]
fn lines_are_read(rt: HostRuntime) {
    let aggregate = Aggregate {
        object: 3,
        rows: 4,
        groups: 2,
        budget: 64,
    };
    let rows: [(&[u8], Asked); 7] = [
        (b"agg 3 4 2 64", Asked::Aggregate(aggregate)),
        (b"", Asked::Nothing),
        (b"# agg 3 4 2 64", Asked::Nothing),
        (b"agg 3 4 2 63", Asked::Bad),
        (b"agg 3 4 2 64 ", Asked::Bad),
        (b"agg 3 04 2 64", Asked::Bad),
        (b"agg 3 4 2", Asked::Bad),
    ];
    for (line, asked) in rows {
        assert_eq!(rt; read_asked(line, false), asked);
    }
    assert_eq!(rt; read_asked(b"agg 3 4 2 64", true), Asked::Bad);
}
