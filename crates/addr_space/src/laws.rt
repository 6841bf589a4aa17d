//! What holds of many contexts over one space.
ghost use Rattle.std.specs.Prelude.{◌≡◌, ◌≢◌, ℕ, ◌+◌, ◌^◌, ◌<◌, ◌≤◌, ◌++◌, List, [], ◌∷◌, length, map, Some, slice_set};
ghost use Rattle.addr_space.specs.declared.Addr.{Addr};
ghost use Rattle.addr_space.specs.Space.{Space, Changes, Asks, IsInside, region_at, IsKnown, byte_at, bytes_of, overwritten, part, accounts, taken, risen};
ghost use Rattle.addr_space.specs.Footprint.{Footprint, Agrees, Moves, Keeps, KeepsBut, AreDisjoint, AllAgree, context_at, nothing, WritesInside};
ghost use Rattle.addr_space.specs.Live.{StaysLive};
ghost use Rattle.addr_space.specs.Contexts.{AreAmong, IsHeldBy, without};

/// The laws by which a caller frames contexts that share a space. A caller names it and cites a clause.
pub fn framing()
    // A call on one context leaves those that were apart from it in agreement, with the bytes of their chunks, and apart.
    ensures agreement { (f g other : Footprint) (s t : Space) → Moves f g s t → AreDisjoint f other → Agrees other s → Agrees other t }
    ensures chunks { (f g other : Footprint) (s t : Space) → Moves f g s t → AreDisjoint f other → Agrees other s → Keeps other other s t }
    ensures disjoint { (f g other : Footprint) (s t : Space) → Moves f g s t → AreDisjoint f other → Agrees other s → AreDisjoint g other }

    // A context that is made is apart from each one that stands, and so are contexts of different accounts.
    ensures fresh { (account context : ℕ) (g other : Footprint) (s t : Space) → Moves (nothing account context) g s t → Agrees other s → AreDisjoint g other }
    ensures foreign { (f g : Footprint) (s : Space) → Agrees f s → Agrees g s → f.account ≢ g.account → AreDisjoint f g }

    // Where nothing happens nothing moves, and one move after another is a move.
    ensures none { (f : Footprint) (s : Space) → Agrees f s → Moves f f s s }
    ensures more { (f g h : Footprint) (s t u : Space) → Moves f g s t → Moves g h t u → Moves f h s u }

    // The same of the bytes of live chunks.
    ensures keeps_none { (f : Footprint) (s : Space) → Keeps f f s s }
    ensures keeps_more { (f g h : Footprint) (s t u : Space) → StaysLive f g → Keeps f g s t → Keeps g h t u → Keeps f h s u }

    // What two calls asked together, and what is counted after a call.
    ensures asks_more { (account m n : ℕ) (s t u : Space) → Asks account m s t → Asks account n t u → Asks account (m + n) s u }
    ensures asked { (account n : ℕ) (s t : Space) → account < accounts s → Asks account n s t → taken t account ≡ risen (taken s account) n }
    ensures not_asked { (account n other : ℕ) (s t : Space) → Asks account n s t → other ≢ account → taken t other ≡ taken s other }

    // A live chunk ends within 2^31 bytes of its region's start, and any part of it is inside that region.
    ensures ends { (f : Footprint) (s : Space) (chunk : Addr) (size : ℕ) → Agrees f s → f.live chunk ≡ Some size → chunk.offset + size ≤ 2 ^ 31 }
    ensures inside { (f : Footprint) (s : Space) (chunk at : Addr) (size n : ℕ) → Agrees f s → f.live chunk ≡ Some size → at.region ≡ chunk.region → at.offset + n ≤ chunk.offset + size → IsInside s at n }

    // A write inside a live chunk moves nothing, and changes the bytes of no other chunk.
    ensures write { (f : Footprint) (s t : Space) (chunk at : Addr) (size : ℕ) (bytes : List ℕ) → Agrees f s → WritesInside f s t chunk at size bytes → Moves f f s t }
    ensures others { (f : Footprint) (s t : Space) (chunk at : Addr) (size : ℕ) (bytes : List ℕ) → Agrees f s → WritesInside f s t chunk at size bytes → KeepsBut chunk f f s t }
{}

/// The laws by which a caller keeps a list of all contexts of a space. A caller names it and cites a clause.
///
/// A context joins the list when it is made, is exchanged for what it became when a call was made on it, and leaves when
/// it is discarded. What each account holds is what the contexts of the list count for it.
pub fn listing()
    // No context is in a space that has no region.
    ensures begins { (s : Space) → AllAgree [] s }
    ensures begins_held { (s : Space) → s.regions ≡ [] → IsHeldBy [] s }

    // A context joins when it is made.
    ensures joins { (fs : List Footprint) (account context : ℕ) (g : Footprint) (s t : Space) → Moves (nothing account context) g s t → AllAgree fs s → AllAgree (fs ++ g ∷ []) t }
    ensures joins_held { (fs : List Footprint) (account context : ℕ) (g : Footprint) (s t : Space) → Moves (nothing account context) g s t → IsHeldBy fs s → IsHeldBy (fs ++ g ∷ []) t }

    // It is exchanged for what it became, and each other one keeps the bytes of its chunks.
    ensures exchanged { (fs : List Footprint) (k : ℕ) (g : Footprint) (s t : Space) → k < length fs → Moves (context_at fs k) g s t → AllAgree fs s → AllAgree (slice_set fs k g) t }
    ensures exchanged_held { (fs : List Footprint) (k : ℕ) (g : Footprint) (s t : Space) → k < length fs → Moves (context_at fs k) g s t → IsHeldBy fs s → IsHeldBy (slice_set fs k g) t }
    ensures beside { (fs : List Footprint) (j k : ℕ) (g : Footprint) (s t : Space) → j < length fs → k < length fs → j ≢ k → Moves (context_at fs k) g s t → AllAgree fs s → Keeps (context_at fs j) (context_at fs j) s t }

    // Where it stays what it is, as where bytes are written in its chunks, so does the list.
    ensures unchanged { (fs : List Footprint) (k : ℕ) (s t : Space) → k < length fs → Moves (context_at fs k) (context_at fs k) s t → AllAgree fs s → AllAgree fs t }
    ensures unchanged_held { (fs : List Footprint) (k : ℕ) (s t : Space) → k < length fs → Moves (context_at fs k) (context_at fs k) s t → IsHeldBy fs s → IsHeldBy fs t }

    // It leaves when it is discarded.
    ensures leaves { (fs : List Footprint) (k account context : ℕ) (s t : Space) → k < length fs → Moves (context_at fs k) (nothing account context) s t → AllAgree fs s → AllAgree (without fs k) t }
    ensures leaves_held { (fs : List Footprint) (k account context : ℕ) (s t : Space) → k < length fs → Moves (context_at fs k) (nothing account context) s t → IsHeldBy fs s → IsHeldBy (without fs k) t }

    // Some of the contexts, in any order.
    ensures among { (hs fs : List Footprint) (s : Space) → AreAmong hs fs → AllAgree fs s → AllAgree hs s }
{}

/// The laws by which a caller reads what it wrote at a place. A caller names it and cites a clause.
pub fn echoing()
    // The place is inside its region still, and its bytes are known.
    ensures inside { (s t : Space) (at : Addr) (bytes : List ℕ) → IsInside s at (length bytes) → Changes s t at.region (overwritten (region_at s at.region) at.offset (map Some bytes)) → IsInside t at (length bytes) }
    ensures known { (s t : Space) (at : Addr) (bytes : List ℕ) → IsInside s at (length bytes) → Changes s t at.region (overwritten (region_at s at.region) at.offset (map Some bytes)) → IsKnown t at (length bytes) }

    // What `read` gives are the bytes that `write` was given.
    ensures same { (s t : Space) (at : Addr) (bytes out : List ℕ) → IsInside s at (length bytes) → Changes s t at.region (overwritten (region_at s at.region) at.offset (map Some bytes)) → map Some out ≡ part (bytes_of (region_at t at.region)) at.offset (length bytes) → out ≡ bytes }
{}
