//! Whatever happens in a world, its journal conforms; points in time keep their rows; and a refused request
//! changes nothing.
#![tactic(auto)]

ghost use Rattle.std.specs.Prelude.{◌≡◌, ◌≢◌, ◌<◌, ◌+◌, ℕ, List, Some};
ghost use Rattle.base_model.specs.Keyed.{Text, at};
ghost use Rattle.race_model.specs.Stores.{Rows, Index, Store, Request, Refusal, Select, pit_at, meant, serve};
ghost use Rattle.race_model.specs.Stores.Request.{OpenPit, ReadPit, ClosePit};
ghost use Rattle.race_model.specs.Stores.Reply.{Pit, Selected, Refused};
ghost use Rattle.race_model.specs.Worlds.{Event};
ghost use Rattle.race_model.specs.Openings.{Scenario, IsJournal, world_after};

/// Whatever happens in a world, its journal conforms: each reply is the store's, each request is one
/// that its actor may make at that point.
pub fn worlds_conform<D, Q, C>()
    ensures { (scenario : Scenario D Q C) (events : List Event) → IsJournal scenario (world_after scenario events).journal }
{}

/// A point in time has the rows that its index had when it was opened, whatever is written to that index
/// or becomes of it, until it is closed; and a read of it selects among these.
pub fn points_in_time_stay<D, Q>()
    ensures opened { (select : Select D Q) (store : Store D) (name : Text) (index : Index D) → at (meant store name) store.indices ≡ Some index →
        (serve select store (OpenPit name)).1 ≡ Pit store.opened }
    ensures rows { (select : Select D Q) (store : Store D) (name : Text) (index : Index D) → at (meant store name) store.indices ≡ Some index →
        pit_at store.opened (serve select store (OpenPit name)).0.pits ≡ Some index.table.rows }
    ensures counted { (select : Select D Q) (store : Store D) (name : Text) (index : Index D) → at (meant store name) store.indices ≡ Some index →
        (serve select store (OpenPit name)).0.opened ≡ store.opened + 1 }
    ensures kept { (select : Select D Q) (store : Store D) (ask : Request D Q) (pit : ℕ) → pit < store.opened → ask ≢ ClosePit pit →
        pit_at pit (serve select store ask).0.pits ≡ pit_at pit store.pits }
    ensures read { (select : Select D Q) (store : Store D) (pit : ℕ) (query : Q) (rows : Rows D) → pit_at pit store.pits ≡ Some rows →
        serve select store (ReadPit pit query) ≡ (store, Selected (select.total query rows) (select.rows query rows)) }
{}

/// A request that is refused changes nothing: so a list of alias actions is done whole or not at all.
pub fn refused_requests_change_nothing<D, Q>()
    ensures { (select : Select D Q) (store : Store D) (ask : Request D Q) (why : Refusal) → (serve select store ask).1 ≡ Refused why → (serve select store ask).0 ≡ store }
{}
