ghost use Rattle.std.specs.Prelude.{◌≡◌, Some};
ghost use Rattle.race_model.specs.Stores.{Request, Reply};
ghost use Rattle.document_model.specs.Documents.{Doc};
ghost use Rattle.document_model.specs.Registries.{Registry};
ghost use Rattle.so_js.specs.declared.js.Js.{Js};
ghost use Rattle.transform_ops.specs.declared.op.Op.{Op};
ghost use Rattle.store_words.specs.Words.{TextQuery};
ghost use Rattle.call_model.specs.Calls.{Call, Answer};
ghost use Rattle.call_model.specs.Plans.Next.{Answers, Asks};
ghost use Rattle.call_model.specs.Scripts.{first, next, last};
ghost use Rattle.call_words.specs.Product.{product_words};
ghost use Rattle.call_words.specs.Told.{answer_with_token};
ghost use Rattle.object_ops.specs.Stages.{begun, went_on, ended, CanGoOn, FewObjects, AsksFew};

/// A plan's requests and its answer are those of the definition of plans: its first request; after
/// the first reply its answer or its second request; and after the second reply its answer. It can
/// always go on, and its bulks are small where its call has few objects.
pub fn plans_follow_the_definition()
    ensures first { (reg : Registry Op) (call : Call Js) → (begun reg call).ask ≡ Some (first product_words reg call) }
    ensures answers { (reg : Registry Op) (call : Call Js) (reply : Reply (Doc Js)) (answer : Answer Js) →
        next product_words reg call reply ≡ Answers answer → went_on reg (begun reg call).stage reply ≡ ended (answer_with_token answer) }
    ensures asks { (reg : Registry Op) (call : Call Js) (reply : Reply (Doc Js)) (ask : Request (Doc Js) TextQuery) →
        next product_words reg call reply ≡ Asks ask → (went_on reg (begun reg call).stage reply).ask ≡ Some ask }
    ensures last { (reg : Registry Op) (call : Call Js) (one two : Reply (Doc Js)) (ask : Request (Doc Js) TextQuery) →
        next product_words reg call one ≡ Asks ask →
        went_on reg (went_on reg (begun reg call).stage one).stage two ≡ ended (answer_with_token (last product_words reg call one two)) }
    ensures starts { (reg : Registry Op) (call : Call Js) → CanGoOn reg (begun reg call).stage }
    ensures goes_on { (reg : Registry Op) (call : Call Js) (reply : Reply (Doc Js)) → CanGoOn reg (went_on reg (begun reg call).stage reply).stage }
    ensures first_is_small { (reg : Registry Op) (call : Call Js) → FewObjects call → AsksFew (first product_words reg call) }
    ensures next_is_small { (reg : Registry Op) (call : Call Js) (reply : Reply (Doc Js)) (ask : Request (Doc Js) TextQuery) →
        FewObjects call → next product_words reg call reply ≡ Asks ask → AsksFew ask }
{}
