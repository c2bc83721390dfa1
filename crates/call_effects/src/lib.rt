//! The laws of what object calls leave and are told: what is refused changes nothing, what is written
//! fits, raw ids are apart, and replies fit.
#![tactic(auto)]

ghost use Rattle.std.specs.Prelude.{◌≡◌, ◌≢◌, ℕ, Bool, true, List, Option, Some, None};
ghost use Rattle.base_model.specs.Keyed.{Text, at};
ghost use Rattle.race_model.specs.Stores.{Store, Request, serve};
ghost use Rattle.race_model.specs.Sorted.{IsSorted};
ghost use Rattle.race_model.specs.Generations.{Generation};
ghost use Rattle.space_scope.specs.declared.kind.Kind.{Kind};
ghost use Rattle.space_scope.specs.declared.kind.Kind.TheVariants.{Single};
ghost use Rattle.document_model.specs.Documents.{Doc, Plain, raw_id};
ghost use Rattle.document_model.specs.Registries.{Registry};
ghost use Rattle.query_model.specs.Queries.{Query, Holds, select};
ghost use Rattle.call_model.specs.declared.refuse.Refuse.{Refuse};
ghost use Rattle.call_model.specs.Words.{Words};
ghost use Rattle.call_model.specs.Calls.{NewObject, Find, Shown, One, Call};
ghost use Rattle.call_model.specs.Calls.Call.{BulkCreating, Getting, Finding};
ghost use Rattle.call_model.specs.Calls.Answer.{Object, Each, Page, Refused};
ghost use Rattle.call_model.specs.Steps.{called};
ghost use Rattle.race_model.specs.Replies.{fits_reply};
ghost use Rattle.call_laws.specs.Meanings.{then_on};
ghost use Rattle.call_effects.specs.Effects.{AllFit, RefusedAt, AllRefused, AllVisible, IsSeenRow};
ghost use Rattle.query_model.specs.declared.parts.Target.{Target};

/// Where neither space is the other's type, one raw id is of one object: one type, one id, and for
/// single types one space.
pub fn raw_ids_are_apart()
    ensures { (kind other_kind : Kind) (space other_space name other_name id other_id : Text) →
        Plain space → Plain other_space → Plain name → Plain other_name → space ≢ other_name → other_space ≢ name →
        raw_id kind space name id ≡ raw_id other_kind other_space other_name other_id →
        (name ≡ other_name) × (id ≡ other_id) × (kind ≡ Single → other_kind ≡ Single → space ≡ other_space) }
{}

/// What is refused changes no object, whichever refusal it is: a refused call leaves its table as it
/// was, a bulk leaves the row of each refused item as it was, and a bulk whose items are all refused
/// leaves its table as it was. Without an index there is nothing to change.
pub fn refused_changes_nothing<A, O, F>()
    ensures call { (w : Words A O F) (reg : Registry O) (call : Call A) (read : Option (Generation (Doc A))) (g : Generation (Doc A)) (why : Refuse) →
        (called w reg call read (Some g)).1 ≡ Refused why → then_on (called w reg call read (Some g)).0 g.table ≡ g.table }
    ensures item { (w : Words A O F) (reg : Registry O) (space : Text) (objects : List (NewObject A)) (overwrite : Bool) (time : Option Text) (read : Option (Generation (Doc A))) (g : Generation (Doc A)) (answers : List (One A)) (raw : Text) →
        (called w reg (BulkCreating space objects overwrite time) read (Some g)).1 ≡ Each answers → RefusedAt reg space raw objects answers →
        at raw (then_on (called w reg (BulkCreating space objects overwrite time) read (Some g)).0 g.table).rows ≡ at raw g.table.rows }
    ensures bulk { (w : Words A O F) (reg : Registry O) (space : Text) (objects : List (NewObject A)) (overwrite : Bool) (time : Option Text) (read : Option (Generation (Doc A))) (g : Generation (Doc A)) (answers : List (One A)) →
        (called w reg (BulkCreating space objects overwrite time) read (Some g)).1 ≡ Each answers → AllRefused answers →
        then_on (called w reg (BulkCreating space objects overwrite time) read (Some g)).0 g.table ≡ g.table }
    ensures without_index { (w : Words A O F) (reg : Registry O) (call : Call A) (read : Option (Generation (Doc A))) → (called w reg call read None).0 ≡ None }
{}

/// Where each row of a known type fits its raw id, it does so after every call.
pub fn written_rows_fit<A, O, F>()
    ensures { (w : Words A O F) (reg : Registry O) (call : Call A) (read : Option (Generation (Doc A))) (g : Generation (Doc A)) →
        AllFit reg g.table.rows → AllFit reg (then_on (called w reg call read (Some g)).0 g.table).rows }
{}

/// The reply of a store whose names are in order fits its request.
pub fn replies_fit<A, F>()
    ensures { (holds : Holds A F) (st : Store (Doc A)) (ask : Request (Doc A) (Query F)) →
        IsSorted st.indices → IsSorted st.aliases → fits_reply (λ (q : Query F). q.limit) ask (serve (select holds) st ask).1 ≡ true }
{}

/// What a find shows are rows of its types that are visible in its space; what a get shows is the row of
/// its object, which has its type and is visible in its space.
pub fn what_is_shown_is_visible<A, O, F>()
    ensures find { (w : Words A O F) (reg : Registry O) (space : Text) (f : Find) (read : Option (Generation (Doc A))) (g : Generation (Doc A)) (objects : List (Shown A)) (page per_page total : ℕ) →
        (called w reg (Finding space f) read (Some g)).1 ≡ Page objects page per_page total → AllVisible reg space f.types g.table.rows objects }
    ensures get { (w : Words A O F) (reg : Registry O) (space : Text) (t : Target) (read : Option (Generation (Doc A))) (g : Generation (Doc A)) (object : Shown A) →
        (called w reg (Getting space t) read (Some g)).1 ≡ Object object → IsSeenRow reg space t g.table.rows object }
{}
