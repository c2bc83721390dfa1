ghost use Rattle.std.specs.Prelude.{◌≡◌, not, [], ◌∷◌, IfOk};
ghost use Rattle.document_model.specs.Documents.{lists};
ghost use Rattle.object_items.specs.Turning.{AreSame};

use plain_data::Text;
use std::alloc::{AllocError, Global};
use std::collections::BTreeSet;
use std::marker::Model;

/// The raw ids that earlier items of a call have.
#[derive(Drop)]
pub(crate) struct Taken {
    raws: BTreeSet<Text>,
}

impl Model for Taken {
    ghost use Rattle.std.specs.Prelude.{ℕ, List};
    ghost use Rattle.std.specs.Coded.{coded_list, coded_ℕ};

    ghost Value = { List (List ℕ) };

    ghost coded = { coded_list (coded_list coded_ℕ) };

    ghost view = { λ t. t.raws.keys };
}

impl Taken {
    /// No raw id is taken, which takes no memory.
    pub(crate) fn new(alloc: Global) -> Taken
        ensures { result ≡ [] }
    {
        Taken {
            raws: BTreeSet::new(alloc),
        }
    }

    /// Takes the raw id, and answers whether no earlier item has it.
    pub(crate) fn take(&mut self, raw: &Text) -> Result<bool, AllocError>
        ensures free { IfOk result (λ is_free. is_free ≡ not (lists raw.now self.old)) }
        ensures taken { IfOk result (λ _. AreSame self.new (raw.now ∷ self.old)) }
    {
        let is_free = self.raws.insert(raw.clone()?)?;
        Ok(is_free)
    }
}
