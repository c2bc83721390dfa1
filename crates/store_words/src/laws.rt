ghost use Rattle.std.specs.Prelude.{◌≡◌, List, [], ◌∷◌, ◌++◌};
ghost use Rattle.store_words.specs.Serving.{Store, served, replayed, Replays};
ghost use Rattle.store_words.specs.Words.{reply_of};
ghost use Rattle.store_words.specs.declared.entry.Entry.{Entry};

/// A law: an entry at a journal's end leaves what its request leaves on the store that the entries
/// before leave, and the journal replays on where its reply is the one given there.
pub fn journals_go_on()
    ensures leaves { (st : Store) (entries : List Entry) (last : Entry) →
        replayed st (entries ++ last ∷ []) ≡ (served (replayed st entries) last.request).0 }
    ensures replays { (st : Store) (entries : List Entry) (last : Entry) →
        Replays st entries → (served (replayed st entries) last.request).1 ≡ reply_of last.reply → Replays st (entries ++ last ∷ []) }
{}
