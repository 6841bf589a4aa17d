//! The turns of a portal's scan.
ghost use Rattle.std.specs.Prelude.{◌≡◌, ◌==◌, ◌+◌, ◌<◌, ◌^◌, [], ◌∷◌, ℕ, false, not, None, IfOk, IfSome, IsSome, OnOk};
ghost use Rattle.std.specs.List.{flat_map};
ghost use Rattle.std.specs.Option.{option_map};
ghost use Rattle.addr_space.specs.Space.{Space};
ghost use Rattle.context_tree.specs.State.{IsLive};
ghost use Rattle.exec_core.specs.Turn.{rest, taken, turn};
ghost use Rattle.exec_core.specs.declared.scan.Scan.{Scan as AScan};
ghost use Rattle.exec_core.specs.declared.steps.ScanStep.TheVariants as step;
ghost use Rattle.portal_store.specs.Portal.{coming};
ghost use Rattle.portal_store.specs.Portals as list;
ghost use Rattle.reset_callbacks.specs.ShelfState.{ShelfState};
ghost use Rattle.session_owners.specs.Commons.{CommonState};
ghost use Rattle.session_owners.specs.ResourceState as owners;
ghost use Rattle.session_rules.specs.Limits.{shared_buffers};
ghost use Rattle.session_rules.specs.Elements as e;
ghost use Rattle.session_rules.specs.Elements.{InRow, OfPortal, OwnerRole, Text};
ghost use Rattle.session_rules.specs.Lookup.{memory_in, owner_in};
ghost use Rattle.session_rules.specs.State.{buffer_pin};
ghost use Rattle.session_rules.specs.Works.{after_turn, fallible_part, takes, turn_steps};
ghost use Rattle.session_store.specs.Calls.{Keeps, StandsIn};
ghost use Rattle.session_store.specs.State.{StoreState, session_of};
ghost use Rattle.portal_commands.specs.Fetching.{Follows, IsAt, IsFetching, IsPage, cost_of, part_of, step_elements};
ghost use Rattle.session_commands.specs.Answers.{refusal_of};
ghost use Rattle.session_commands.specs.Performed.{now, HasRoom, Performed};

use exec_core::ScanStep;
use owner_kinds::ExtKind;
use pgs_step::{CtxId, Emit, Error, KindId, Name, OwnerId, What};
use reset_callbacks::ResetHook;
use session_commands::{Shared, call_error, hold_pin, release_item};
use session_ends::{fail_portal, portal_at, step_at};
use session_store::Store;

/// A portal that is fetched from: its name, and its place among the session's portals, at which the steps of a fetch find it.
#[derive(Drop)]
pub(crate) struct FetchedPortal {
    pub name: Name,
    pub place: usize,
}

/// How many bytes a row takes.
const ROW_BYTES: u64 = 64;

/// A turn of a portal's scan, and whether it gave a row. Where it is refused the portal has failed: `MarkPortalFailed`.
pub(crate) fn take_turn<H: ResetHook, K: ExtKind, E: Emit>(
    store: &mut Store<H>,
    portal: &FetchedPortal,
    shared: &mut Shared<'_, H, K>,
    out: &mut E,
) -> Result<bool, Error>
    requires fetching { (scan : AScan) × IsFetching portal.now.name scan (now store.old shared.old) }
    requires place { IsAt portal.now.name portal.now.place store.old }
    requires room { HasRoom 3 (now store.old shared.old) }
    ensures performed { (scan : AScan) → IsFetching portal.now.name scan (now store.old shared.old) → Performed 3 (turn_steps portal.now.name scan) (now store.old shared.old) (now store.new shared.new) (λ events. E.emits out.old events out.new) (refusal_of result) }
    ensures fetching { OnOk result ((scan : AScan) → IsFetching portal.now.name scan (now store.old shared.old) → IsFetching portal.now.name (after_turn scan) (now store.new shared.new)) }
    ensures place { OnOk result (IsAt portal.now.name portal.now.place store.new) }
    ensures row { IfOk result (λ row. (scan : AScan) → IsFetching portal.now.name scan (now store.old shared.old) → row ≡ not (scan.at == scan.rows)) }
{
    match run_turn(store, portal, shared, out) {
        Ok(row) => Ok(row),
        Err(error) => {
            fail_portal(store, &portal.name);
            Err(error)
        }
    }
}

/// The steps of a turn, up to one that is refused, and whether it gave a row.
fn run_turn<H: ResetHook, K: ExtKind, E: Emit>(
    store: &mut Store<H>,
    portal: &FetchedPortal,
    shared: &mut Shared<'_, H, K>,
    out: &mut E,
) -> Result<bool, Error>
    requires fetching { (scan : AScan) × IsFetching portal.now.name scan (now store.old shared.old) }
    requires place { IsAt portal.now.name portal.now.place store.old }
    requires room { HasRoom 3 (now store.old shared.old) }
    ensures performed { (scan : AScan) → IsFetching portal.now.name scan (now store.old shared.old) → Performed 3 (flat_map (step_elements portal.now.name) (turn scan)) (now store.old shared.old) (now store.new shared.new) (λ events. E.emits out.old events out.new) (refusal_of result) }
    ensures there { IsSome (list.portal_named portal.now.name store.new.portals) }
    ensures fetching { OnOk result ((scan : AScan) → IsFetching portal.now.name scan (now store.old shared.old) → IsFetching portal.now.name (after_turn scan) (now store.new shared.new)) }
    ensures place { IsAt portal.now.name portal.now.place store.new }
    ensures row { IfOk result (λ row. (scan : AScan) → IsFetching portal.now.name scan (now store.old shared.old) → row ≡ not (scan.at == scan.rows)) }
{
    let mut begins = true;
    loop {
        let step = take_step(store, portal, begins, shared, out);
        if let Err(error) = serve(store, portal, step, shared, out) {
            return Err(error);
        }
        match step {
            ScanStep::Row(_, _) => return Ok(true),
            ScanStep::End => return Ok(false),
            _ => begins = false,
        }
    }
}

/// The next step of the scan, with what that does by itself.
fn take_step<H: ResetHook, K: ExtKind, E: Emit>(
    store: &mut Store<H>,
    portal: &FetchedPortal,
    begins: bool,
    shared: &mut Shared<'_, H, K>,
    out: &mut E,
) -> ScanStep
    requires fetching { (scan : AScan) × IsFetching portal.now.name scan (now store.old shared.old) }
    requires place { IsAt portal.now.name portal.now.place store.old }
    ensures performed { Performed 0 (e.Scans portal.now.name result ∷ []) (now store.old shared.old) (now store.new shared.new) (λ events. E.emits out.old events out.new) None }
    ensures step { (scan : AScan) → IsFetching portal.now.name scan (now store.old shared.old) → coming begins scan ≡ result ∷ rest result (taken result scan) }
    ensures fetching { (scan : AScan) → IsFetching portal.now.name scan (now store.old shared.old) → IsFetching portal.now.name (taken result scan) (now store.new shared.new) }
    ensures place { IsAt portal.now.name portal.now.place store.new }
{
    let step = step_at(store, portal.place, begins);
    follow(store, portal, step, shared, out);
    step
}

/// What a step does by itself: the memory of one row is reset, a page is given back, a row is told.
fn follow<H: ResetHook, K: ExtKind, E: Emit>(
    store: &mut Store<H>,
    portal: &FetchedPortal,
    step: ScanStep,
    shared: &mut Shared<'_, H, K>,
    out: &mut E,
)
    requires fetching { (scan : AScan) × IsFetching portal.now.name scan (now store.old shared.old) }
    requires place { IsAt portal.now.name portal.now.place store.old }
    ensures follows { Follows (part_of portal.now.name step) (now store.old shared.old) (now store.new shared.new) (λ events. E.emits out.old events out.new) }
{
    match step {
        ScanStep::Reset => reset_row(store, portal, shared, out),
        ScanStep::Unpin(page) => unpin_page(store, portal, page, shared, out),
        ScanStep::Row(row, value) => out.emit(What::Row {
            portal: portal.name,
            row,
            value,
        }),
        _ => {}
    }
}

/// The memory of one row is reset, where the portal has it: `ResetExprContext`.
fn reset_row<H: ResetHook, K: ExtKind, E: Emit>(
    store: &mut Store<H>,
    portal: &FetchedPortal,
    shared: &mut Shared<'_, H, K>,
    out: &mut E,
)
    requires fetching { (scan : AScan) × IsFetching portal.now.name scan (now store.old shared.old) }
    requires place { IsAt portal.now.name portal.now.place store.old }
    ensures follows { Follows (part_of portal.now.name step.Reset) (now store.old shared.old) (now store.new shared.new) (λ events. E.emits out.old events out.new) }
{
    if let Some(at) = row_context(store, portal.place) {
        store.clear_only(shared.space, shared.shelf, at, out);
    }
}

/// The page that the scan has left is given back, where the portal's owner holds it: `ReleaseBuffer`.
fn unpin_page<H: ResetHook, K: ExtKind, E: Emit>(
    store: &mut Store<H>,
    portal: &FetchedPortal,
    page: u32,
    shared: &mut Shared<'_, H, K>,
    out: &mut E,
)
    requires fetching { (scan : AScan) × IsFetching portal.now.name scan (now store.old shared.old) }
    requires place { IsAt portal.now.name portal.now.place store.old }
    ensures follows { Follows (part_of portal.now.name (step.Unpin page)) (now store.old shared.old) (now store.new shared.new) (λ events. E.emits out.old events out.new) }
{
    let Some(owner) = portal_owner(store, portal.place) else {
        return;
    };
    if let Err(_) = release_item(
        store,
        owner,
        KindId::BUFFER_PIN,
        page,
        shared.space,
        shared.shelf,
        shared.commons,
        out,
    ) {
        return;
    }
}

/// What a step needs besides: its page is pinned, its row can be made, or memory is taken for it.
fn serve<H: ResetHook, K: ExtKind, E: Emit>(
    store: &mut Store<H>,
    portal: &FetchedPortal,
    step: ScanStep,
    shared: &mut Shared<'_, H, K>,
    out: &mut E,
) -> Result<(), Error>
    requires fetching { (scan : AScan) × IsFetching portal.now.name scan (now store.old shared.old) }
    requires place { IsAt portal.now.name portal.now.place store.old }
    requires page { IsPage step }
    requires room { HasRoom (cost_of step) (now store.old shared.old) }
    ensures performed { Performed (cost_of step) (fallible_part portal.now.name step) (now store.old shared.old) (now store.new shared.new) (λ events. E.emits out.old events out.new) (refusal_of result) }
    ensures fetching { (scan : AScan) → IsFetching portal.now.name scan (now store.old shared.old) → IsFetching portal.now.name scan (now store.new shared.new) }
    ensures place { IsAt portal.now.name portal.now.place store.new }
{
    match step {
        ScanStep::Pin(page) => pin_page(store, portal, page, shared, out),
        ScanStep::Bad(row) => Err(Error::BadRow(row)),
        ScanStep::Alloc => take_row(store, portal, shared, out),
        _ => Ok(()),
    }
}

/// A page is pinned for a portal: `ReadBuffer`. The calls count where it has no owner, too.
fn pin_page<H: ResetHook, K: ExtKind, E: Emit>(
    store: &mut Store<H>,
    portal: &FetchedPortal,
    page: u32,
    shared: &mut Shared<'_, H, K>,
    out: &mut E,
) -> Result<(), Error>
    requires fetching { (scan : AScan) × IsFetching portal.now.name scan (now store.old shared.old) }
    requires place { IsAt portal.now.name portal.now.place store.old }
    requires page { page < shared_buffers }
    requires room { HasRoom 2 (now store.old shared.old) }
    ensures performed { Performed 2 (takes (OfPortal portal.now.name) buffer_pin page) (now store.old shared.old) (now store.new shared.new) (λ events. E.emits out.old events out.new) (refusal_of result) }
{
    match portal_owner(store, portal.place) {
        Some(owner) => hold_pin(store, owner, page, shared, out),
        None => count_pin(shared),
    }
}

/// The two calls of a pin.
fn count_pin<H: ResetHook, K: ExtKind>(shared: &mut Shared<'_, H, K>) -> Result<(), Error>
    requires room { shared.old.calls.now.count + 2 < 2 ^ 62 }
    ensures counted { (role : OwnerRole) (page : ℕ) (store : StoreState) → Keeps store shared.old.space.now → owner_in role (session_of store shared.old.space.now) ≡ None → Performed 2 (takes role buffer_pin page) (now store shared.old) (now store shared.new) (λ events. events ≡ []) (refusal_of result) }
{
    shared.calls.next()?;
    shared.calls.next()
}

/// Memory is taken for a row, in the context of one row, where the portal has that.
fn take_row<H: ResetHook, K: ExtKind, E: Emit>(
    store: &mut Store<H>,
    portal: &FetchedPortal,
    shared: &mut Shared<'_, H, K>,
    out: &mut E,
) -> Result<(), Error>
    requires fetching { (scan : AScan) × IsFetching portal.now.name scan (now store.old shared.old) }
    requires place { IsAt portal.now.name portal.now.place store.old }
    requires room { HasRoom 1 (now store.old shared.old) }
    ensures performed { Performed 1 (e.Alloc (InRow portal.now.name) None 64 false ∷ []) (now store.old shared.old) (now store.new shared.new) (λ events. E.emits out.old events out.new) (refusal_of result) }
{
    shared.calls.next()?;
    let Some(at) = row_context(store, portal.place) else {
        return Ok(());
    };
    if let Err(refusal) = store.alloc_at(shared.space, at, None, ROW_BYTES) {
        return Err(call_error(refusal, shared.calls.count));
    }
    Ok(())
}

/// The context of one row of the portal of this place, where it has that.
fn row_context<H: ResetHook>(store: &Store<H>, place: usize) -> Option<CtxId>
    ensures context { (name : Text) → IsAt name place store.now → (s : Space) → memory_in (InRow name) (session_of store.now s) ≡ option_map (λ id. id.number) result }
    ensures live { (name : Text) → IsAt name place store.now → (s : Space) (x : ShelfState) (c : CommonState) → StandsIn store.now s x c → IfSome result (IsLive store.now.tree) }
{
    match portal_at(store, place) {
        Some(portal) => portal.expr,
        None => None,
    }
}

/// The owner of the portal of this place, where it has one.
fn portal_owner<H: ResetHook>(store: &Store<H>, place: usize) -> Option<OwnerId>
    ensures owner { (name : Text) → IsAt name place store.now → (s : Space) → owner_in (OfPortal name) (session_of store.now s) ≡ option_map (λ id. id.number) result }
    ensures live { (name : Text) → IsAt name place store.now → (s : Space) (x : ShelfState) (c : CommonState) → StandsIn store.now s x c → IfSome result (owners.IsLive store.now.owners) }
{
    match portal_at(store, place) {
        Some(portal) => portal.owner,
        None => None,
    }
}
