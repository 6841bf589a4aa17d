//! Portals are made, with their contexts and their owner.
ghost use Rattle.std.specs.Prelude.{◌≡◌, ◌≢◌, ◌↔◌, ◌⊎◌, ◌<◌, ◌≤◌, ◌^◌, ◌∷◌, length, true, Some, None, Err, IfErr, OnOk, OnErr, IsSome, codes};
ghost use Rattle.std.specs.Option.{option_and_then};
ghost use Rattle.addr_space.specs.Space.{Space, Asks};
ghost use Rattle.any_ctx.specs.Kinds.{first_size};
ghost use Rattle.any_ctx.specs.declared.any.CtxKind.TheVariants as kind;
ghost use Rattle.reset_callbacks.specs.ShelfState.{ShelfState};
ghost use Rattle.forest.specs.Forest.{size};
ghost use Rattle.exec_core.specs.Turn.{new_scan};
ghost use Rattle.context_rules.specs.Refusals.{create_refusal};
ghost use Rattle.context_tree.specs.State.{Moves};
ghost use Rattle.context_tree.specs.Making.{AsksInVain};
ghost use Rattle.pgs_step.specs.declared.ids.CtxId.{CtxId as ACtxId};
ghost use Rattle.pgs_step.specs.declared.ids.OwnerId.{OwnerId as AnOwnerId};
ghost use Rattle.portal_store.specs.Portals.{changed, new_portal, portal_named};
ghost use Rattle.session_owners.specs.ResourceState.{owners_of};
ghost use Rattle.session_owners.specs.Commons.{CommonState};
ghost use Rattle.session_rules.specs.Limits.{most_owners, most_portals};
ghost use Rattle.session_rules.specs.Elements.{OfPortal, PortalContext, RowContext};
ghost use Rattle.session_rules.specs.Making.{new_context_made, new_owner_made, portal_made};
ghost use Rattle.session_store.specs.State.{contexts_in, left_in};
ghost use Rattle.session_store.specs.Calls.{Acted, IsSilent, Keeps, PortalsAlone, Refused, StandsIn};

use addr_space::Space;
use any_ctx::CtxKind;
use context_node::own_name;
use context_rules::TreeError;
use exec_core::Scan;
use owner_core::OwnerError;
use pgs_step::{CtxId, Emit, Name};
use portal_store::{MAX_PORTALS, PortalError, Portals};
use reset_callbacks::ResetHook;
use session_store::Store;

/// Makes a portal at the deepest level: it has no context and no owner yet, and its scan has given no row: `CreatePortal`.
///
/// `TooMany` comes where there are 1,024 portals, `Memory` where memory is refused.
pub fn make_portal<H: ResetHook>(
    store: &mut Store<H>,
    name: Name,
    object: u32,
    rows: u32,
    bad: Option<u32>,
) -> Result<(), PortalError>
    requires new { portal_named name store.old.portals ≡ None }
    ensures acted { OnOk result ((s : Space) (x : ShelfState) (c : CommonState) → Acted (portal_made name object rows bad) store.old store.new s s x x c c IsSilent) }
    ensures alone { PortalsAlone store.old store.new }
    ensures portals { OnOk result (store.new.portals ≡ new_portal name (new_scan object rows bad) (length store.old.levels) ∷ store.old.portals) }
    ensures too_many { (result ≡ Err PortalError.TooMany) ↔ (length store.old.portals ≡ most_portals) }
    ensures untaken { result ≢ Err PortalError.Taken }
    ensures at_most { length store.old.portals ≤ most_portals }
    ensures refused { OnErr result (store.new ≡ store.old) }
{
    prove!(store.portals.len() <= MAX_PORTALS);
    let level = store.levels.depth();
    store
        .portals
        .create(name, Scan::new(object, rows, bad), level)
}

/// Makes the context of a portal, below that for portals: the portal's `portalContext`.
///
/// `TooMany` comes where 65,536 contexts live, and then `Ctx(NoSpace)` where the first block doesn't fit; `Memory` may
/// come in place of any of them.
pub fn make_portal_context<H: ResetHook, E: Emit>(
    store: &mut Store<H>,
    space: &mut Space,
    name: &Name,
    out: &mut E,
) -> Result<(), TreeError>
    requires keeps { Keeps store.old space.old }
    requires stands { (x : ShelfState) × ((c : CommonState) × StandsIn store.old space.old x c) }
    requires room { store.old.tree.next < 2 ^ 62 }
    requires there { IsSome (portal_named name.now store.old.portals) }
    ensures acted { OnOk result ((x : ShelfState) (c : CommonState) → Acted (new_context_made (PortalContext name.now)) store.old store.new space.old space.new x x c c (λ events. E.emits out.old events out.new)) }
    ensures keeps { Keeps store.new space.new }
    ensures moves { Moves store.old.tree store.new.tree space.old space.new }
    ensures owners { store.new.owners ≡ store.old.owners }
    ensures levels { store.new.levels ≡ store.old.levels }
    ensures portals { OnOk result ((id : ACtxId) × (id.number ≡ store.old.tree.next) × (store.new.portals ≡ changed name.now (λ p. record p { context = Some id }) store.old.portals)) }
    ensures asked { OnOk result (Asks store.old.tree.account (first_size kind.Small) space.old space.new) }
    ensures served { OnOk result (create_refusal (left_in store.old space.old) (codes "PortalContext") kind.Small true (contexts_in store.old space.old) ≡ None) }
    ensures cause { IfErr result (λ e. (e ≡ TreeError.Memory) ⊎ (create_refusal (left_in store.old space.old) (codes "PortalContext") kind.Small true (contexts_in store.old space.old) ≡ Some e)) }
    ensures refused { OnErr result ((x : ShelfState) (c : CommonState) → Refused store.old store.new space.old space.new x x c c) }
    ensures err_asked { IfErr result (λ e. AsksInVain e store.old.tree.account (first_size kind.Small) space.old space.new) }
    ensures silent { OnErr result (out.new ≡ out.old) }
{
    let parent = store.tree.portals();
    let title = own_name(b"PortalContext");
    match store
        .tree
        .create(space, parent, title, CtxKind::Small, true, out)
    {
        Ok(context) => {
            store.portals.set_context(name, context);
            Ok(())
        }
        Err(error) => Err(error),
    }
}

/// The context of the portal of this name, which has one.
fn context_of(portals: &Portals, name: &Name) -> CtxId
    requires { IsSome (option_and_then (λ p. p.context) (portal_named name.now portals.now)) }
    ensures { option_and_then (λ p. p.context) (portal_named name.now portals.now) ≡ Some result }
{
    let Some(portal) = portals.get(name) else {
        unreachable!()
    };
    match portal.context {
        Some(context) => context,
        None => unreachable!(),
    }
}

/// Makes the context of one row of a portal's scan, below the portal's: the scan's per-tuple `ExprContext`. The answers are those of
/// `make_portal_context`.
pub fn make_row_context<H: ResetHook, E: Emit>(
    store: &mut Store<H>,
    space: &mut Space,
    name: &Name,
    out: &mut E,
) -> Result<(), TreeError>
    requires keeps { Keeps store.old space.old }
    requires stands { (x : ShelfState) × ((c : CommonState) × StandsIn store.old space.old x c) }
    requires room { store.old.tree.next < 2 ^ 62 }
    requires context { IsSome (option_and_then (λ p. p.context) (portal_named name.now store.old.portals)) }
    ensures acted { OnOk result ((x : ShelfState) (c : CommonState) → Acted (new_context_made (RowContext name.now)) store.old store.new space.old space.new x x c c (λ events. E.emits out.old events out.new)) }
    ensures keeps { Keeps store.new space.new }
    ensures moves { Moves store.old.tree store.new.tree space.old space.new }
    ensures owners { store.new.owners ≡ store.old.owners }
    ensures levels { store.new.levels ≡ store.old.levels }
    ensures portals { OnOk result ((id : ACtxId) × (id.number ≡ store.old.tree.next) × (store.new.portals ≡ changed name.now (λ p. record p { expr = Some id }) store.old.portals)) }
    ensures asked { OnOk result (Asks store.old.tree.account (first_size kind.Small) space.old space.new) }
    ensures served { OnOk result (create_refusal (left_in store.old space.old) (codes "ExprContext") kind.Small true (contexts_in store.old space.old) ≡ None) }
    ensures cause { IfErr result (λ e. (e ≡ TreeError.Memory) ⊎ (create_refusal (left_in store.old space.old) (codes "ExprContext") kind.Small true (contexts_in store.old space.old) ≡ Some e)) }
    ensures refused { OnErr result ((x : ShelfState) (c : CommonState) → Refused store.old store.new space.old space.new x x c c) }
    ensures err_asked { IfErr result (λ e. AsksInVain e store.old.tree.account (first_size kind.Small) space.old space.new) }
    ensures silent { OnErr result (out.new ≡ out.old) }
{
    let parent = context_of(&store.portals, name);
    let title = own_name(b"ExprContext");
    match store
        .tree
        .create(space, parent, title, CtxKind::Small, true, out)
    {
        Ok(context) => {
            store.portals.set_expr(name, context);
            Ok(())
        }
        Err(error) => Err(error),
    }
}

/// Makes the owner of a portal, below that of the deepest level: the portal's `resowner`.
///
/// `TooMany` comes where as many owners live as can, `Memory` where memory is refused.
pub fn make_portal_owner<H: ResetHook, E: Emit>(
    store: &mut Store<H>,
    name: &Name,
    out: &mut E,
) -> Result<(), OwnerError>
    requires stands { (s : Space) × ((x : ShelfState) × ((c : CommonState) × StandsIn store.old s x c)) }
    requires room { store.old.owners.next_owner < 2 ^ 62 }
    requires there { IsSome (portal_named name.now store.old.portals) }
    ensures acted { OnOk result ((s : Space) (x : ShelfState) (c : CommonState) → Acted (new_owner_made (OfPortal name.now)) store.old store.new s s x x c c (λ events. E.emits out.old events out.new)) }
    ensures keeps { (s : Space) → Keeps store.old s → Keeps store.new s }
    ensures tree { store.new.tree ≡ store.old.tree }
    ensures levels { store.new.levels ≡ store.old.levels }
    ensures portals { OnOk result ((id : AnOwnerId) × (id.number ≡ store.old.owners.next_owner) × (store.new.portals ≡ changed name.now (λ p. record p { owner = Some id }) store.old.portals)) }
    ensures too_many { (result ≡ Err OwnerError.TooMany) ↔ (most_owners ≤ size (owners_of store.old.owners)) }
    ensures causes { OnErr result ((result ≢ Err OwnerError.Releasing) × (result ≢ Err OwnerError.NotOwned)) }
    ensures err { OnErr result (store.new ≡ store.old) }
    ensures silent { OnErr result (out.new ≡ out.old) }
{
    let parent = store.level_owner();
    match store.owners.make_owner(parent, out) {
        Ok(owner) => {
            store.portals.set_owner(name, owner);
            Ok(())
        }
        Err(error) => Err(error),
    }
}
