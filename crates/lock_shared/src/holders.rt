//! Who holds one object.
ghost use Rattle.std.specs.Prelude.{◌≡◌, not, filter, IsTrue, IsOk, OnOk, OnErr};
ghost use Rattle.lock_shared.specs.Holdings.{holds, is_holding};
ghost use Rattle.lock_shared.specs.Objects.{with_holding};
ghost use Rattle.lock_shared.specs.Blocking.{blocks, IsLeastOf, lesser_of};

use crate::mode_conflicts::conflicts;
use crate::shared_locks::Holding;
use pgs_step::Mode;
use smallvec::SmallVec;
use std::alloc::AllocError;

/// How many holdings an object keeps in its entry; more take memory of their own. Most objects have one.
const HOLDINGS_INSIDE: usize = 2;

/// The holdings of one object, each once.
pub type Holders = SmallVec<Holding, HOLDINGS_INSIDE>;

impl Holding {
    /// Whether this is the holding of that session on that object in that mode.
    fn is(&self, object: u32, mode: Mode, session: u8) -> bool
        ensures { result ≡ is_holding object mode session self.now }
    {
        self.object == object && self.mode.number() == mode.number() && self.session == session
    }

    /// Whether this is another session's holding, and its mode conflicts with the wanted one.
    fn blocks(&self, object: u32, wanted: Mode, session: u8) -> bool
        ensures { result ≡ blocks object wanted session self.now }
    {
        self.object == object && conflicts(wanted, self.mode) && self.session != session
    }
}

/// Whether the holding is among them.
fn is_held(holdings: &[Holding], object: u32, mode: Mode, session: u8) -> bool
    ensures { result ≡ holds holdings.now object mode session }
{
    holdings.iter().any(|held| held.is(object, mode, session))
}

/// Adds a holding, unless it is among them.
pub fn add(holders: &mut Holders, holding: Holding) -> Result<(), AllocError>
    ensures ok { OnOk result (holders.new.items ≡ with_holding holding holders.old.items) }
    ensures held { IsTrue (holds holders.old.items holding.object holding.mode holding.session) → IsOk result }
    ensures again { IsTrue (holds holders.old.items holding.object holding.mode holding.session) → holders.new ≡ holders.old }
    ensures err { OnErr result (holders.new ≡ holders.old) }
{
    if !is_held(
        holders.as_slice(),
        holding.object,
        holding.mode,
        holding.session,
    ) {
        holders.push(holding)?;
    }
    Ok(())
}

/// Takes off that holding, and keeps the others in their order.
pub fn take_off(holders: &mut Holders, object: u32, mode: Mode, session: u8)
    ensures { holders.new.items ≡ filter (λ h. not (is_holding object mode session h)) holders.old.items }
{
    holders.retain(|held| !held.is(object, mode, session));
}

/// The session and mode of the holding that blocks, of the least session and then of the least mode.
pub fn least_blocking(
    holdings: &[Holding],
    object: u32,
    wanted: Mode,
    session: u8,
) -> Option<(u8, Mode)>
    ensures { IsLeastOf holdings.now object wanted session result }
{
    let mut least = None;
    for held in holdings {
        if held.blocks(object, wanted, session) {
            least = Some(lesser(least, held.session, held.mode));
        }
    }
    least
}

/// The one of the two with the lesser session, and of two of one session the one with the lesser mode.
fn lesser(least: Option<(u8, Mode)>, session: u8, mode: Mode) -> (u8, Mode)
    ensures { result ≡ lesser_of least session mode }
{
    match least {
        Some((other, held))
            if other < session || (other == session && held.number() <= mode.number()) => {
            (other, held)
        }
        _ => (session, mode),
    }
}
