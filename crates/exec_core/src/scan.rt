//! A scan and its steps.
ghost use Rattle.std.specs.Prelude.{◌≡◌, ◌<◌, ◌%◌, ◌∷◌, ◌⊎◌, false};
ghost use Rattle.exec_core.specs.declared.scan.Stage.TheVariants.{AtRest, Reset, Pinned, Allocated};

use crate::steps::ScanStep;

/// How many rows a page has.
const PAGE_ROWS: u32 = 10;

/// How many buffers there are.
const BUFFERS: u64 = 1024;

/// How far a scan has come in the turn of its next row.
#[derive(Clone, Copy, Debug, PartialEq, Eq)]
pub enum Stage {
    /// Between turns.
    AtRest,
    /// The memory of the row before was reset.
    Reset,
    /// The row's page was asked for.
    Pinned,
    /// The row's memory was asked for.
    Allocated,
}

/// A scan of the rows 0 to `rows` - 1 of an object: PostgreSQL's `SeqScanState` over a table of numbers.
///
/// The rows come from a formula. Each ten of them lie on one page, which the scan keeps pinned while it
/// gives them. `bad` is a row that can't be made, if there is one. `at` is the next row. `page` is the buffer
/// that is pinned, if one is: it is set by the call behind the one that asked for the pin, so that it names
/// no buffer that isn't pinned yet. `stage` says how far the turn of row `at` has come.
#[derive(Clone, Copy, Debug, PartialEq, Eq)]
pub struct Scan {
    pub object: u32,
    pub rows: u32,
    pub bad: Option<u32>,
    pub at: u32,
    pub page: Option<u32>,
    pub stage: Stage,
}

impl Scan {
    ghost use Rattle.exec_core.specs.Turn.{new_scan, IsScan, left, rest, taken, page_of, value_of, is_tenth, KeepsTable};

    /// A scan that has given no row yet.
    pub fn new(object: u32, rows: u32, bad: Option<u32>) -> Scan
        ensures made { result ≡ new_scan object rows bad }
        ensures scan { IsScan result }
    {
        Scan {
            object,
            rows,
            bad,
            at: 0,
            page: None,
            stage: Stage::AtRest,
        }
    }

    /// The next step.
    ///
    /// A turn begins where the scan is at rest, and takes all steps of one row, up to `Row` or `Bad`, or ends the
    /// scan with `End`. Behind `Bad` the turn of the same row begins anew, behind `End` the scan ends again.
    pub fn next(&mut self) -> ScanStep
        requires { IsScan self.old }
        ensures step { left self.old ≡ result ∷ rest result self.new }
        ensures taken { self.new ≡ taken result self.old }
        ensures table { KeepsTable self.old self.new }
        ensures scan { IsScan self.new }
    {
        match self.stage {
            Stage::AtRest if self.at == self.rows => self.end(),
            Stage::AtRest => {
                self.stage = Stage::Reset;
                ScanStep::Reset
            }
            Stage::Reset if self.is_tenth() => self.change_page(),
            Stage::Allocated => self.give_row(),
            Stage::Reset | Stage::Pinned => self.make_row(),
        }
    }

    /// Behind the last row: releases the page, if one is pinned, and ends.
    fn end(&mut self) -> ScanStep
        requires rest { self.old.stage ≡ AtRest }
        requires end { self.old.at ≡ self.old.rows }
        ensures step { left self.old ≡ result ∷ rest result self.new }
        ensures taken { self.new ≡ taken result self.old }
    {
        match self.page.take() {
            Some(page) => ScanStep::Unpin(page),
            None => ScanStep::End,
        }
    }

    /// At the first row of a page: releases the page before, if one is pinned, and asks for the new one.
    fn change_page(&mut self) -> ScanStep
        requires reset { self.old.stage ≡ Reset }
        requires tenth { self.old.at % 10 ≡ 0 }
        ensures step { left self.old ≡ result ∷ rest result self.new }
        ensures taken { self.new ≡ taken result self.old }
    {
        match self.page.take() {
            Some(page) => ScanStep::Unpin(page),
            None => {
                self.stage = Stage::Pinned;
                ScanStep::Pin(self.row_page())
            }
        }
    }

    /// Asks for the row's memory, unless the row is bad.
    fn make_row(&mut self) -> ScanStep
        requires stage { self.old.stage ≡ Reset ⊎ self.old.stage ≡ Pinned }
        requires page { self.old.stage ≡ Reset → is_tenth self.old ≡ false }
        ensures step { left self.old ≡ result ∷ rest result self.new }
        ensures taken { self.new ≡ taken result self.old }
    {
        if self.stage == Stage::Pinned {
            self.page = Some(self.row_page());
        }
        if self.bad == Some(self.at) {
            self.stage = Stage::AtRest;
            return ScanStep::Bad(self.at);
        }
        self.stage = Stage::Allocated;
        ScanStep::Alloc
    }

    /// Gives the row, and goes on to the next one.
    fn give_row(&mut self) -> ScanStep
        requires stage { self.old.stage ≡ Allocated }
        requires row { self.old.at < self.old.rows }
        ensures step { left self.old ≡ result ∷ rest result self.new }
        ensures taken { self.new ≡ taken result self.old }
    {
        let row = ScanStep::Row(self.at, self.row_value());
        self.at += 1;
        self.stage = Stage::AtRest;
        row
    }

    /// Whether the next row is the first of a page.
    fn is_tenth(&self) -> bool
        ensures { result ≡ is_tenth self.now }
    {
        self.at % PAGE_ROWS == 0
    }

    /// The buffer of the next row's page.
    fn row_page(&self) -> u32
        ensures { result ≡ page_of self.now }
    {
        ((u64::from(self.object) + u64::from(self.at / PAGE_ROWS)) % BUFFERS) as u32
    }

    /// What the next row holds.
    fn row_value(&self) -> u32
        ensures { result ≡ value_of self.now }
    {
        ((31 * u64::from(self.object) + 7 * u64::from(self.at)) % 1000) as u32
    }
}
